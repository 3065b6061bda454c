//! Tables of writing.

use crate::code::WRONG_TYPE;
use crate::refusals::has_code;
use crate::{BEFORE, holds, read, reads, same};
use postgres_types::private::BytesMut;
use postgres_types::{Fault, FromSql, IsNull, Paired, ToSql, Type, rewrite, to_sql_checked_as};
use std::alloc::Global;
use std::fmt::Debug;
use std::test::Fail;

/// Tests that each function for writing writes the value as the cell, after the content of a buffer
/// and into an empty one.
pub fn writes<T: ToSql>(alloc: Global, value: &T, ty: &Type, cell: &[u8]) -> Result<(), Fail> {
    let mut out = BytesMut::copy_from_slice(alloc, BEFORE)?;
    let answer = value.to_sql_checked(alloc, ty, &mut out);
    same(answered(answer, &out)?, IsNull::No)?;
    same(out.strip_prefix(BEFORE), Some(cell))?;
    let mut out = BytesMut::new(alloc);
    let answer = to_sql_checked_as(alloc, value, "value", ty, &mut out)?;
    same(answer, IsNull::No)?;
    same(out.as_slice(), cell)?;
    writes_unchecked(alloc, value, ty, cell)
}

/// Returns the answer of a write to a buffer, which a refusal leaves as it was.
fn answered(answer: Result<IsNull, Fault>, out: &BytesMut) -> Result<IsNull, Fail> {
    if answer.is_err() {
        same(out.as_slice(), BEFORE)?;
    }
    Ok(answer?)
}

/// Tests that the value is written as the cell into an empty buffer, if the type is accepted.
fn writes_unchecked<T: ToSql>(
    alloc: Global,
    value: &T,
    ty: &Type,
    cell: &[u8],
) -> Result<(), Fail> {
    if T::accepts(ty) {
        let mut out = BytesMut::new(alloc);
        let answer = value.to_sql(alloc, ty, &mut out);
        holds(answer.is_ok() || out.is_empty(), "a refused write appended")?;
        same(answer?, IsNull::No)?;
        same(out.as_slice(), cell)?;
    }
    Ok(())
}

/// Tests that the value is written as NULL, which appends nothing.
pub fn writes_null<T: ToSql>(alloc: Global, value: &T, ty: &Type) -> Result<(), Fail> {
    let mut out = BytesMut::copy_from_slice(alloc, BEFORE)?;
    let answer = value.to_sql_checked(alloc, ty, &mut out);
    same(answered(answer, &out)?, IsNull::Yes)?;
    if T::accepts(ty) {
        let answer = value.to_sql(alloc, ty, &mut out);
        same(answered(answer, &out)?, IsNull::Yes)?;
    }
    same(out.as_slice(), BEFORE)
}

/// Tests that writing the value to that type is refused with the fault of that number, and appends
/// nothing.
pub fn refuses_value<T: ToSql>(alloc: Global, value: &T, ty: &Type, code: u32) -> Result<(), Fail> {
    let mut out = BytesMut::copy_from_slice(alloc, BEFORE)?;
    let refused = value.to_sql_checked(alloc, ty, &mut out);
    same(out.as_slice(), BEFORE)?;
    has_code(refused, code)
}

/// Tests that the type is refused, with the Rust type's name in the text of the fault, and that
/// nothing is written.
pub fn refuses_type<T: ToSql>(alloc: Global, value: &T, ty: &Type, rust: &str) -> Result<(), Fail> {
    refuses_value(alloc, value, ty, WRONG_TYPE)?;
    let mut out = BytesMut::new(alloc);
    let Err(fault) = value.to_sql_checked(alloc, ty, &mut out) else {
        return Err(Fail::from("accepted"));
    };
    let text = format!(in alloc; "{fault}")?;
    let expected = format!(in alloc;
        "cannot convert between the Rust type `{rust}` and the Postgres type `{ty}`"
    )?;
    same(text.as_str(), expected.as_str())
}

/// Tests that the cell is read as a `T` and written as the other cell.
pub fn rewrites<'a, T: Paired<'a>>(
    alloc: Global,
    ty: &Type,
    cell: &'a [u8],
    written: &[u8],
) -> Result<(), Fail> {
    let mut out = BytesMut::new(alloc);
    let answer = rewrite::<T>(alloc, ty, Some(cell), &mut out);
    holds(answer.is_ok() || out.is_empty(), "a refused write appended")?;
    same(answer?, IsNull::No)?;
    same(out.as_slice(), written)
}

/// Tests that the value is written as the cell, and the cell is read back as the other value.
pub fn reads_back<'a, T: Paired<'a> + PartialEq + Debug>(
    alloc: Global,
    ty: &Type,
    value: &T,
    cell: &'a [u8],
    back: T,
) -> Result<(), Fail> {
    writes(alloc, value, ty, cell)?;
    reads(alloc, ty, cell, back)
}

/// Tests that each value is written as its cell, and the cell is read as the value.
pub fn spells<'a, T: FromSql<'a> + ToSql + PartialEq>(
    alloc: Global,
    ty: &Type,
    rows: &'a [(T, &'a [u8])],
) -> Result<(), Fail> {
    for (value, cell) in rows {
        writes(alloc, value, ty, cell)?;
        let found: T = read(alloc, ty, Some(*cell))?;
        same(found == *value, true)?;
    }
    Ok(())
}
