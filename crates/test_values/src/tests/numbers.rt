//! Integers, booleans and OIDs: a table of rows for each format.

use postgres_types::Type;
use postgres_types::protocol::bool_from_sql;
use std::test::Fail;
use test_support::code::SIZE;
use test_support::{has_cells, reads, rewrites, same};

const BOOL: [(bool, &[u8]); 2] = [(false, &[0]), (true, &[1])];

const CHAR: [(i8, &[u8]); 2] = [(127, &[0x7f]), (-1, &[0xff])];

const INT2: [(i16, &[u8]); 2] = [(258, &[1, 2]), (-2, &[0xff, 0xfe])];

const INT4: [(i32, &[u8]); 2] = [(7, &[0, 0, 0, 7]), (i32::MIN, &[0x80, 0, 0, 0])];

const INT8: [(i64, &[u8]); 2] = [
    (1, &[0, 0, 0, 0, 0, 0, 0, 1]),
    (i64::MIN, &[0x80, 0, 0, 0, 0, 0, 0, 0]),
];

const OID: [(u32, &[u8]); 2] = [
    (0x0102_0304, &[1, 2, 3, 4]),
    (4_294_967_295, &[0xff, 0xff, 0xff, 0xff]),
];

const DAMAGED_INT8: [(Option<&[u8]>, u32); 1] = [(Some(&[0, 0, 0, 1]), SIZE)];

#[test]
fn booleans_and_narrow_integers_have_their_cells(rt: HostRuntime) -> Result<(), Fail> {
    let alloc = rt.alloc();
    has_cells(alloc, &Type::BOOL, &BOOL, &[])?;
    has_cells(alloc, &Type::CHAR, &CHAR, &[])?;
    has_cells(alloc, &Type::INT2, &INT2, &[])
}

#[test]
fn wide_integers_and_oids_have_their_cells(rt: HostRuntime) -> Result<(), Fail> {
    let alloc = rt.alloc();
    has_cells(alloc, &Type::INT4, &INT4, &[])?;
    has_cells(alloc, &Type::INT8, &INT8, &DAMAGED_INT8)?;
    has_cells(alloc, &Type::OID, &OID, &[])
}

#[test]
fn any_byte_but_zero_is_true(rt: HostRuntime) -> Result<(), Fail> {
    same(bool_from_sql(&[2])?, true)?;
    reads(rt.alloc(), &Type::BOOL, &[2], true)?;
    rewrites::<bool>(rt.alloc(), &Type::BOOL, &[2], &[1])
}
