//! Equality and order, as `btfloat8cmp` answers.

use pg_numbers::{Float4, Float8};
use std::cmp::Ordering;
use std::collections::HashSet;
use std::test::Fail;
use test_support::same;

#[test]
fn nan_is_the_greatest(_rt: HostRuntime) -> Result<(), Fail> {
    let (one, nan) = (Float8::from(1.0), Float8::from(f64::NAN));
    same(
        (one.cmp(&nan), one < nan, one == nan),
        (Ordering::Less, true, false),
    )?;
    let (one, nan) = (Float4::from(1.0), Float4::from(f32::NAN));
    same(
        (one.cmp(&nan), one < nan, one == nan),
        (Ordering::Less, true, false),
    )
}

#[test]
fn zeros_have_one_hash(rt: HostRuntime) -> Result<(), Fail> {
    let mut values = HashSet::new(rt.alloc());
    for bits in [0, 0x8000_0000_0000_0000] {
        values.insert(Float8::from_bits(bits))?;
    }
    same(values.len(), 1)
}
