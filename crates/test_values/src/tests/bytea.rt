//! Bytes and frames: a table of rows for each format.

use postgres_types::Type;
use postgres_types::protocol::{bytea_from_sql, bytea_to_sql, frame_to_sql};
use std::borrow::CowSlice;
use std::test::Fail;
use test_support::code::WAS_NULL;
use test_support::{
    appends, has_cells, null_takes_no_memory, same, spells, writes, writes_by_room,
};

const BYTEA: [(&[u8], &[u8]); 2] = [(&[], &[]), (&[0, 0xff, 7], &[0, 0xff, 7])];

const DAMAGED: [(Option<&[u8]>, u32); 1] = [(None, WAS_NULL)];

const FRAMES: [(Option<&[u8]>, &[u8]); 3] = [
    (None, &[0xff, 0xff, 0xff, 0xff]),
    (Some(&[]), &[0, 0, 0, 0]),
    (Some(&[9, 8]), &[0, 0, 0, 2, 9, 8]),
];

#[test]
fn borrowed_bytes_have_their_cells(rt: HostRuntime) -> Result<(), Fail> {
    has_cells(rt.alloc(), &Type::BYTEA, &BYTEA, &DAMAGED)?;
    same(bytea_from_sql(b"ab"), b"ab".as_slice())
}

#[test]
fn owned_bytes_have_their_cells(rt: HostRuntime) -> Result<(), Fail> {
    let alloc = rt.alloc();
    let bytes: Vec<u8> = Vec::from_slice(alloc, b"ab")?;
    writes_by_room(alloc, &Type::BYTEA, &bytes, b"ab")?;
    let rows = [(bytes, b"ab".as_slice()), (Vec::new(alloc), b"".as_slice())];
    spells(alloc, &Type::BYTEA, &rows)?;
    null_takes_no_memory::<Vec<u8>>(alloc, &Type::BYTEA)
}

#[test]
fn cows_and_arrays_are_written_as_bytes(rt: HostRuntime) -> Result<(), Fail> {
    let alloc = rt.alloc();
    let cow = CowSlice::Borrowed(b"ab".as_slice());
    writes(alloc, &cow, &Type::BYTEA, b"ab")?;
    writes_by_room(alloc, &Type::BYTEA, &cow, b"ab")?;
    let none: [u8; 0] = [];
    writes(alloc, &none, &Type::BYTEA, &[])?;
    writes(alloc, &[0u8, 0xff, 7], &Type::BYTEA, &[0, 0xff, 7])?;
    writes_by_room(alloc, &Type::BYTEA, &[1u8, 2, 3, 4], &[1, 2, 3, 4])
}

#[test]
fn bytes_and_frames_are_appended(rt: HostRuntime) -> Result<(), Fail> {
    let alloc = rt.alloc();
    appends(alloc, |alloc, v, out| bytea_to_sql(alloc, v, out), &BYTEA)?;
    appends(alloc, |alloc, v, out| frame_to_sql(alloc, v, out), &FRAMES)
}
