//! Tables of plain functions, which need no Postgres type.

use crate::same;
use crate::without_memory::{Answered, Target, answer_without_memory, yes};
use postgres_types::Fault;
use postgres_types::private::BytesMut;
use std::alloc::Global;
use std::test::Fail;

/// Tests that the function appends the cell of each value to a buffer with exactly the room for it.
fn appends_by_room<T: Copy, F: Fn(Global, T, &mut BytesMut) -> Result<(), Fault>>(
    alloc: Global,
    append: &F,
    rows: &[(T, &[u8])],
    target: &mut Target,
) -> Answered
    requires { F.IsAlwaysCallable append.now }
{
    for (value, cell) in rows {
        target.leave(cell.len())?;
        let appended = append(alloc, *value, &mut target.out).is_ok();
        yes(appended && target.has(*cell), "appended")?;
    }
    Ok(())
}

/// Tests that the function appends the cell of each value to an empty buffer and, while every
/// allocation fails, to one with exactly the room for it.
pub fn appends<T: Copy, F: Fn(Global, T, &mut BytesMut) -> Result<(), Fault>>(
    alloc: Global,
    append: F,
    rows: &[(T, &[u8])],
) -> Result<(), Fail>
    requires { F.IsAlwaysCallable append }
{
    for (value, cell) in rows {
        let mut out = BytesMut::new(alloc);
        append(alloc, *value, &mut out)?;
        same(out.as_slice(), *cell)?;
    }
    answer_without_memory(
        alloc,
        |alloc, target| appends_by_room(alloc, &append, rows, target),
    )
}

/// Returns the number of the fault, or 0 if there is none.
pub fn fault_code<T: Drop>(answer: Result<T, Fault>) -> u32 {
    match answer {
        Ok(_) => 0,
        Err(fault) => fault.code(),
    }
}
