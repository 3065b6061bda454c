//! Calls that do not allocate: with exactly the room for what they append, they succeed while every
//! allocation fails.
use crate::code::WAS_NULL;
use crate::{fault_code, hoard, holds, read};
use postgres_types::private::BytesMut;
use postgres_types::{Fault, FromSql, IsNull, ToSql, Type};
use std::alloc::Global;
use std::test::Fail;

/// `Ok` if all calls returned the expected values; otherwise a fault with the name of the one that
/// did not.
pub type Answered = Result<(), Fault>;

/// Returns a fault with that name if the condition is false.
pub fn yes(answered: bool, name: &'static str) -> Answered {
    if answered {
        Ok(())
    } else {
        Err(Fault::user(name))
    }
}

/// A buffer with exactly the room for what is appended, which is at most 64 bytes.
#[derive(Debug, Drop)]
pub struct Target {
    pub out: BytesMut,
}

impl Target {
    /// Leaves room for `len` bytes.
    pub fn leave(&mut self, len: usize) -> Answered {
        let Some(filled) = self.out.capacity().checked_sub(len) else {
            return Err(Fault::user("the buffer is too small"));
        };
        yes(self.out.resize(filled, 0).is_ok(), "the buffer has no room")
    }

    /// Whether the cell was appended and fills the buffer.
    pub fn has(&self, cell: &[u8]) -> bool {
        self.out.ends_with(cell) && self.out.len() == self.out.capacity()
    }
}

/// Tests that the calls succeed with exactly the room that they need, while every allocation fails.
///
/// The stack cannot grow while all address space is taken, so that the calls are made once before.
pub fn answer_without_memory<F: Fn(Global, &mut Target) -> Answered>(
    alloc: Global,
    calls: F,
) -> Result<(), Fail>
    requires { F.IsAlwaysCallable calls }
{
    let out = BytesMut::with_capacity(alloc, 64)?;
    let mut target = Target { out };
    calls(alloc, &mut target)?;
    let blocks = hoard(alloc)?;
    let refused = Vec::<u8>::with_capacity(alloc, 8).is_err();
    let answered = calls(alloc, &mut target);
    drop(blocks);
    holds(refused, "a growth is not refused")?;
    answered?;
    Ok(())
}

/// Whether the result is that value.
pub fn gives<T: PartialEq + Drop>(found: Result<T, Fault>, value: T) -> bool {
    match found {
        Ok(found) => found == value,
        Err(_) => false,
    }
}

/// Whether the result is a value equal to that one.
fn is_value<T: PartialEq + Drop>(found: Result<T, Fault>, value: &T) -> bool {
    match found {
        Ok(found) => found == *value,
        Err(_) => false,
    }
}

/// Whether the result is `Some` of a value equal to that one.
fn is_some<T: PartialEq + Drop>(found: Result<Option<T>, Fault>, value: &T) -> bool {
    match found {
        Ok(Some(found)) => found == *value,
        _ => false,
    }
}

/// Tests that the cell is read as the value, by a `T` and by an option of it.
fn reads_cell<'a, T: FromSql<'a> + PartialEq>(
    alloc: Global,
    ty: &Type,
    value: &T,
    cell: &'a [u8],
) -> Answered {
    yes(
        is_value(read::<T>(alloc, ty, Some(cell)), value),
        "from_sql",
    )?;
    let option = read::<Option<T>>(alloc, ty, Some(cell));
    yes(is_some(option, value), "from_sql of an option")
}

/// Tests that a `T` refuses NULL, and that an option of it reads it.
fn reads_null<'a, T: FromSql<'a>>(alloc: Global, ty: &Type) -> Answered {
    let null = fault_code(read::<T>(alloc, ty, None));
    yes(null == WAS_NULL, "from_sql_null")?;
    let option = fault_code(read::<Option<T>>(alloc, ty, None));
    yes(option == 0, "from_sql_null of an option")
}

/// Tests that each function for writing writes the value as the cell, into a buffer with exactly
/// the room for it.
fn writes_cell<T: ToSql>(
    alloc: Global,
    ty: &Type,
    value: &T,
    cell: &[u8],
    target: &mut Target,
) -> Answered {
    target.leave(cell.len())?;
    let checked = value.to_sql_checked(alloc, ty, &mut target.out);
    yes(
        gives(checked, IsNull::No) && target.has(cell),
        "to_sql_checked",
    )?;
    if !T::accepts(ty) {
        return Err(Fault::user("not accepted"));
    }
    target.leave(cell.len())?;
    let written = value.to_sql(alloc, ty, &mut target.out);
    yes(gives(written, IsNull::No) && target.has(cell), "to_sql")
}

/// Tests that each row is read and written, and that NULL is refused.
fn answers<'a, T: FromSql<'a> + ToSql + PartialEq>(
    alloc: Global,
    ty: &Type,
    rows: &'a [(T, &'a [u8])],
    target: &mut Target,
) -> Answered {
    for (value, cell) in rows {
        reads_cell(alloc, ty, value, *cell)?;
        writes_cell(alloc, ty, value, *cell, target)?;
    }
    reads_null::<T>(alloc, ty)
}

/// Tests a table of a format whose values are read and written without allocating: while every
/// allocation fails, each cell is read as the value, and the value is written as the cell into a
/// buffer with exactly the room for it.
pub fn takes_no_memory<'a, T: FromSql<'a> + ToSql + PartialEq>(
    alloc: Global,
    ty: &Type,
    rows: &'a [(T, &'a [u8])],
) -> Result<(), Fail> {
    answer_without_memory(alloc, |alloc, target| answers(alloc, ty, rows, target))
}

/// Tests that the value is written as the cell into a buffer with exactly the room for it, while
/// every allocation fails.
pub fn writes_by_room<T: ToSql>(
    alloc: Global,
    ty: &Type,
    value: &T,
    cell: &[u8],
) -> Result<(), Fail> {
    answer_without_memory(alloc, |alloc, target| {
        writes_cell(alloc, ty, value, cell, target)
    })
}

/// Tests that, while every allocation fails, a `T` refuses NULL, and an option of it reads it.
pub fn null_takes_no_memory<'a, T: FromSql<'a>>(alloc: Global, ty: &Type) -> Result<(), Fail> {
    reads_null::<T>(alloc, ty)?;
    let blocks = hoard(alloc)?;
    let answered = reads_null::<T>(alloc, ty);
    drop(blocks);
    answered?;
    Ok(())
}
