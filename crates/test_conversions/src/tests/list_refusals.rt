//! Arrays whose reading is refused.

use super::cells::ONE_AND_TWO;
use postgres_types::{FromSql, Type};
use std::alloc::Global;
use std::test::Fail;
use test_support::{code, displays, read, refusal, refuses, refuses_fronts, same};

const INTS: Type = Type::INT4_ARRAY;

/// The array of 1 and 2, and a trailing byte.
const TRAILING_BYTE: [u8; 37] = [
    0, 0, 0, 1, 0, 0, 0, 0, 0, 0, 0, 0x17, 0, 0, 0, 2, 0, 0, 0, 1, 0, 0, 0, 4, 0, 0, 0, 1, 0, 0, 0,
    4, 0, 0, 0, 2, 0,
];

/// Damaged cells, and the number of the fault of the first check that fails.
const DAMAGED: [(Option<&[u8]>, u32); 8] = [
    (Some(&[0xff, 0xff, 0xff, 0xff]), code::COUNT),
    (Some(&[0x80, 0, 0, 0]), code::COUNT),
    (
        Some(&[0, 0, 0, 2, 0, 0, 0, 0, 0, 0, 0, 0x17]),
        code::DIMENSIONS,
    ),
    // No dimension and a trailing byte, a negative number of elements, and one that is too great.
    (
        Some(&[0, 0, 0, 0, 0, 0, 0, 0, 0, 0, 0, 0x17, 0]),
        code::SIZE,
    ),
    (
        Some(&[
            0, 0, 0, 1, 0, 0, 0, 0, 0, 0, 0, 0x17, 0xff, 0xff, 0xff, 0xff, 0, 0, 0, 1,
        ]),
        code::COUNT,
    ),
    (
        Some(&[
            0, 0, 0, 1, 0, 0, 0, 0, 0, 0, 0, 0x17, 0x7f, 0xff, 0xff, 0xff, 0, 0, 0, 1,
        ]),
        code::SIZE,
    ),
    // NULL, and then a truncated element.
    (
        Some(&[
            0, 0, 0, 1, 0, 0, 0, 1, 0, 0, 0, 0x17, 0, 0, 0, 2, 0, 0, 0, 1, 0xff, 0xff, 0xff, 0xff,
            0,
        ]),
        code::WAS_NULL,
    ),
    (Some(&TRAILING_BYTE), code::SIZE),
];

#[test]
fn damaged_arrays_are_refused_by_their_first_check(rt: HostRuntime) -> Result<(), Fail> {
    refuses::<Vec<i32>>(rt.alloc(), &INTS, &DAMAGED)?;
    refuses_fronts::<Vec<i32>>(rt.alloc(), &INTS, &ONE_AND_TWO, &[])
}

#[test]
fn arrays_have_no_truncated_element_and_no_trailing_byte(rt: HostRuntime) -> Result<(), Fail> {
    let alloc = rt.alloc();
    let refused = [
        refusal::<[i32; 3]>(alloc, &INTS, Some(&TRAILING_BYTE)),
        refusal::<[i32; 2]>(alloc, &INTS, Some(&TRAILING_BYTE)),
        refusal::<[i32; 1]>(alloc, &INTS, Some(&ONE_AND_TWO[..35])),
    ];
    same(refused, [code::SIZE, code::SIZE, code::SIZE])
}

/// Tests that the array of 1 and 2 is refused with a fault of this text.
fn refuses_length<'a, T: FromSql<'a>>(alloc: Global, text: &str) -> Result<(), Fail> {
    match read::<T>(alloc, &INTS, Some(&ONE_AND_TWO)) {
        Ok(_) => Err(Fail::from("an array of another length is read")),
        Err(fault) => displays(alloc, &fault, text),
    }
}

#[test]
fn arrays_have_their_length(rt: HostRuntime) -> Result<(), Fail> {
    let alloc = rt.alloc();
    let too_few = "too few elements in array (expected 3, got 2)";
    refuses_length::<[i32; 3]>(alloc, too_few)?;
    let excess = "excess elements in array (expected 1, got more than that)";
    refuses_length::<[i32; 1]>(alloc, excess)?;
    let none_expected = "excess elements in array (expected 0, got more than that)";
    refuses_length::<[i32; 0]>(alloc, none_expected)
}
