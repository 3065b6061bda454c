//! Tables of a format, tested with every call that reads or writes it.

use crate::{refuses, spells, takes_no_memory};
use postgres_types::{FromSql, ToSql, Type};
use std::alloc::Global;
use std::test::Fail;

/// A table of a format whose values are read and written without allocating: each value is written
/// as its cell, and the cell is read as the value, also if every allocation fails. Each of the
/// other cells is refused with the fault of its number.
pub fn has_cells<'a, T: FromSql<'a> + ToSql + PartialEq>(
    alloc: Global,
    ty: &Type,
    rows: &'a [(T, &'a [u8])],
    others: &'a [(Option<&'a [u8]>, u32)],
) -> Result<(), Fail> {
    spells(alloc, ty, rows)?;
    takes_no_memory(alloc, ty, rows)?;
    refuses::<T>(alloc, ty, others)
}
