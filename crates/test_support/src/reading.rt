//! Tables of reading.

use crate::code::SIZE;
use crate::refusals::has_code;
use crate::same;
use postgres_types::{Fault, FromSql, Type, from_sql_nullable};
use std::alloc::Global;
use std::fmt::Debug;
use std::test::Fail;

/// Reads the cell. A type that is not accepted is refused.
pub fn read<'a, T: FromSql<'a>>(
    alloc: Global,
    ty: &Type,
    cell: Option<&'a [u8]>,
) -> Result<T, Fault> {
    if !T::accepts(ty) {
        return Err(Fault::user("not accepted"));
    }
    from_sql_nullable(alloc, ty, cell)
}

/// Tests that the cell is read as the value.
pub fn reads<'a, T: FromSql<'a> + PartialEq + Debug>(
    alloc: Global,
    ty: &Type,
    cell: &'a [u8],
    value: T,
) -> Result<(), Fail> {
    let found: T = read(alloc, ty, Some(cell))?;
    same(found, value)
}

/// Returns the number of the fault with which the cell is refused, or 0 if it is read.
pub fn refusal<'a, T: FromSql<'a>>(alloc: Global, ty: &Type, cell: Option<&'a [u8]>) -> u32 {
    match read::<T>(alloc, ty, cell) {
        Ok(_) => 0,
        Err(fault) => fault.code(),
    }
}

/// Tests that each cell is refused with the fault of its number.
pub fn refuses<'a, T: FromSql<'a>>(
    alloc: Global,
    ty: &Type,
    rows: &'a [(Option<&'a [u8]>, u32)],
) -> Result<(), Fail> {
    for (cell, code) in rows {
        has_code(read::<T>(alloc, ty, *cell), *code)?;
    }
    Ok(())
}

/// Tests that each proper prefix of the cell, from the empty one on, is refused with the fault of
/// its number, or read if the number is 0. Prefixes without a number are refused with `Size`.
pub fn refuses_fronts<'a, T: FromSql<'a>>(
    alloc: Global,
    ty: &Type,
    cell: &'a [u8],
    codes: &[u32],
) -> Result<(), Fail> {
    for len in 0..cell.len() {
        let code = codes.get(len).copied().unwrap_or(SIZE);
        has_code(read::<T>(alloc, ty, Some(&cell[..len])), code)?;
    }
    Ok(())
}
