//! Cells: a number, a zero, an infinity and NaN; and other cells.

use pg_numbers::types::{float4_type, float8_type};
use pg_numbers::{Float4, Float8};
use std::test::Fail;
use test_support::code::{SIZE, WAS_NULL};
use test_support::{has_cells, same};

#[test]
fn float8_has_eight_bytes(rt: HostRuntime) -> Result<(), Fail> {
    let rows: [(Float8, &[u8]); 4] = [
        (Float8::from(-0.0), b"\x80\0\0\0\0\0\0\0"),
        (Float8::from(0.1), b"\x3f\xb9\x99\x99\x99\x99\x99\x9a"),
        (Float8::from(f64::NEG_INFINITY), b"\xff\xf0\0\0\0\0\0\0"),
        (Float8::from(f64::NAN), b"\x7f\xf8\0\0\0\0\0\0"),
    ];
    let others: [(Option<&[u8]>, u32); 2] = [(None, WAS_NULL), (Some(b"\x3f\x80\0\0"), SIZE)];
    has_cells(rt.alloc(), &float8_type(rt.alloc())?, &rows, &others)
}

#[test]
fn float4_has_four_bytes(rt: HostRuntime) -> Result<(), Fail> {
    let rows: [(Float4, &[u8]); 4] = [
        (Float4::from(-0.0), b"\x80\0\0\0"),
        (Float4::from(0.1), b"\x3d\xcc\xcc\xcd"),
        (Float4::from(f32::NEG_INFINITY), b"\xff\x80\0\0"),
        (Float4::from(f32::NAN), b"\x7f\xc0\0\0"),
    ];
    let others: [(Option<&[u8]>, u32); 2] = [
        (None, WAS_NULL),
        (Some(b"\x3f\xf0\0\0\0\0\0\0"), SIZE),
    ];
    has_cells(rt.alloc(), &float4_type(rt.alloc())?, &rows, &others)
}

#[test]
fn numbers_are_converted(_rt: HostRuntime) -> Result<(), Fail> {
    let (number, nan) = (Float8::from(-2.5), Float8::from(f64::NAN));
    same((number.get(), nan.get()), (Some(-2.5), None))?;
    same((f64::from(number), nan.is_nan()), (-2.5, true))?;
    same(nan.to_bits(), 0x7ff8_0000_0000_0000)?;
    let (number, nan) = (Float4::from(-2.5), Float4::from(f32::NAN));
    same((number.get(), nan.get()), (Some(-2.5), None))?;
    same((f32::from(number), nan.is_nan()), (-2.5, true))
}
