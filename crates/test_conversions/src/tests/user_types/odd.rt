//! Conversions with unusual rules: timestamps of 4 bytes and as their number, a value for NULL, and
//! a refusal in writing.

use postgres_types::odd::{Gap, Moment, Picky, Short};
use postgres_types::{Timestamp, Type};
use std::test::Fail;
use test_support::code::{SIZE, USER, WAS_NULL};
use test_support::{
    read, reads, reads_back, refuses, refuses_both, refuses_type, same, spells, writes, writes_null,
};

#[test]
fn each_has_its_name(rt: HostRuntime) -> Result<(), Fail> {
    refuses_type(rt.alloc(), &Short(5), &Type::TIMESTAMPTZ, "Short")?;
    refuses_type(rt.alloc(), &Gap::Hole, &Type::INT8, "Gap")?;
    refuses_type(rt.alloc(), &Moment(0), &Type::INT8, "Moment")?;
    refuses_type(rt.alloc(), &Picky(2), &Type::OID, "Picky")
}

/// Cells that are no timestamps of 4 bytes, and the numbers of their faults.
const NOT_SHORT: [(Option<&[u8]>, u32); 4] = [
    (None, WAS_NULL),
    (Some(&[]), USER),
    (Some(&[0; 3]), USER),
    (Some(&[0; 8]), USER),
];

#[test]
fn short_timestamps_have_four_bytes(rt: HostRuntime) -> Result<(), Fail> {
    let row = (Short(5), [0, 0, 0, 5].as_slice());
    spells(rt.alloc(), &Type::TIMESTAMP, &[row])?;
    refuses::<Short>(rt.alloc(), &Type::TIMESTAMP, &NOT_SHORT)
}

#[test]
fn a_short_timestamp_is_no_cell_of_a_timestamp(rt: HostRuntime) -> Result<(), Fail> {
    let alloc = rt.alloc();
    writes(
        alloc,
        &Timestamp::Value(Short(5)),
        &Type::TIMESTAMP,
        &[0, 0, 0, 5],
    )?;
    refuses::<Timestamp<Short>>(
        alloc,
        &Type::TIMESTAMP,
        &[(Some(&[0, 0, 0, 5]), SIZE), (Some(&[0; 8]), USER)],
    )
}

/// The greatest number of 8 bytes.
const GREATEST: [u8; 8] = [0x7f, 0xff, 0xff, 0xff, 0xff, 0xff, 0xff, 0xff];

#[test]
fn moments_are_read_as_numbers(rt: HostRuntime) -> Result<(), Fail> {
    let alloc = rt.alloc();
    let rows: [(Moment, &[u8]); 2] = [(Moment(0), &[0; 8]), (Moment(i64::MAX), &GREATEST)];
    spells(alloc, &Type::TIMESTAMP, &rows)?;
    refuses::<Moment>(
        alloc,
        &Type::TIMESTAMP,
        &[(None, WAS_NULL), (Some(&[0; 4]), SIZE)],
    )
}

#[test]
fn the_greatest_moment_is_read_back_as_infinity(rt: HostRuntime) -> Result<(), Fail> {
    reads_back(
        rt.alloc(),
        &Type::TIMESTAMP,
        &Timestamp::Value(Moment(i64::MAX)),
        &GREATEST,
        Timestamp::PosInfinity,
    )
}

#[test]
fn gaps_are_a_number_or_null(rt: HostRuntime) -> Result<(), Fail> {
    let row = (Gap::Full(1), [0, 0, 0, 1].as_slice());
    spells(rt.alloc(), &Type::INT4, &[row])?;
    writes_null(rt.alloc(), &Gap::Hole, &Type::INT4)?;
    same(read(rt.alloc(), &Type::INT4, None)?, Gap::Hole)
}

#[test]
fn wrapped_gaps_are_not_read_back(rt: HostRuntime) -> Result<(), Fail> {
    let alloc = rt.alloc();
    writes_null(alloc, &Some(Gap::Hole), &Type::INT4)?;
    same(read(alloc, &Type::INT4, None)?, None::<Gap>)?;
    writes_null(alloc, &Box::new(alloc, Gap::Hole)?, &Type::INT4)?;
    refuses::<Box<Gap>>(alloc, &Type::INT4, &[(None, WAS_NULL)])
}

/// An array of 1 and NULL.
const ONE_AND_NULL: [u8; 32] = [
    0, 0, 0, 1, 0, 0, 0, 1, 0, 0, 0, 0x17, 0, 0, 0, 2, 0, 0, 0, 1, 0, 0, 0, 4, 0, 0, 0, 1, 0xff,
    0xff, 0xff, 0xff,
];

#[test]
fn gaps_stand_in_arrays(rt: HostRuntime) -> Result<(), Fail> {
    let alloc = rt.alloc();
    let gaps = vec![in alloc; Gap::Full(1), Gap::Hole]?;
    spells(alloc, &Type::INT4_ARRAY, &[(gaps, ONE_AND_NULL.as_slice())])
}

#[test]
fn odd_numbers_are_read_and_not_written(rt: HostRuntime) -> Result<(), Fail> {
    reads(rt.alloc(), &Type::INT4, &[0, 0, 0, 3], Picky(3))?;
    refuses_both(rt.alloc(), &Picky(3), &Type::INT4, USER)
}

/// An array of 2 and 4.
const TWO_AND_FOUR: [u8; 36] = [
    0, 0, 0, 1, 0, 0, 0, 0, 0, 0, 0, 0x17, 0, 0, 0, 2, 0, 0, 0, 1, 0, 0, 0, 4, 0, 0, 0, 2, 0, 0, 0,
    4, 0, 0, 0, 4,
];

#[test]
fn a_list_is_refused_for_one_of_its_elements(rt: HostRuntime) -> Result<(), Fail> {
    let alloc = rt.alloc();
    let even = vec![in alloc; Picky(2), Picky(4)]?;
    spells(alloc, &Type::INT4_ARRAY, &[(even, TWO_AND_FOUR.as_slice())])?;
    let mixed = vec![in alloc; Picky(2), Picky(4), Picky(3)]?;
    refuses_both(alloc, &mixed, &Type::INT4_ARRAY, USER)
}
