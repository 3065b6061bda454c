//! Refusals, and values that both functions for writing refuse.

use crate::{BEFORE, fault_code, refuses_value, same};
use postgres_types::private::BytesMut;
use postgres_types::{Fault, ToSql, Type};
use std::alloc::Global;
use std::test::Fail;

/// Tests that the answer is the fault of that number, or the value if the number is 0. Out of memory
/// fails with its own text, by which `.ci/memory` tells it from another answer.
pub(crate) fn has_code<T: Drop>(answer: Result<T, Fault>, code: u32) -> Result<(), Fail> {
    match answer {
        Err(Fault::Memory) => Err(Fail::from(Fault::Memory)),
        other => same(fault_code(other), code),
    }
}

/// Tests that both functions for writing refuse the value for that type, which is accepted, with
/// the fault of that number, and append nothing.
pub fn refuses_both<T: ToSql>(alloc: Global, value: &T, ty: &Type, code: u32) -> Result<(), Fail> {
    refuses_value(alloc, value, ty, code)?;
    if !T::accepts(ty) {
        return Err(Fail::from("not accepted"));
    }
    let mut out = BytesMut::copy_from_slice(alloc, BEFORE)?;
    let refused = value.to_sql(alloc, ty, &mut out);
    same(out.as_slice(), BEFORE)?;
    has_code(refused, code)
}
