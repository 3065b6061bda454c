//! hstore as a map of texts.

use postgres_types::protocol::{hstore_from_sql, hstore_to_sql};
use postgres_types::{BytesMut, Fault, Type};
use std::alloc::{AllocError, Global};
use std::collections::HashMap;
use std::test::Fail;
use test_support::code::{KEY_LENGTH, SIZE, UTF8, WAS_NULL};
use test_support::without_memory::{answer_without_memory, gives, yes};
use test_support::{
    holds, null_takes_no_memory, read, refuses, refuses_fronts, rewrites, same, simple_type, writes,
};

type Map = HashMap<String, Option<String>>;

/// A key and its value (`None` is NULL).
type Entry = (&'static str, Option<&'static str>);

/// a => 1, a => NULL
const TWICE: [u8; 23] = [
    0, 0, 0, 2, 0, 0, 0, 1, b'a', 0, 0, 0, 1, b'1', 0, 0, 0, 1, b'a', 0xff, 0xff, 0xff, 0xff,
];

/// a => NULL
const NULL: [u8; 13] = [0, 0, 0, 1, 0, 0, 0, 1, b'a', 0xff, 0xff, 0xff, 0xff];

/// a => b, c => NULL
const TWO: [u8; 23] = [
    0, 0, 0, 2, 0, 0, 0, 1, b'a', 0, 0, 0, 1, b'b', 0, 0, 0, 1, b'c', 0xff, 0xff, 0xff, 0xff,
];

fn hstore(alloc: Global) -> Result<Type, Fault> {
    simple_type(alloc, "hstore", 100_002, "public")
}

fn owned(alloc: Global, text: Option<&str>) -> Result<Option<String>, AllocError> {
    match text {
        Some(text) => Ok(Some(String::from_str(alloc, text)?)),
        None => Ok(None),
    }
}

/// Returns the map of these entries.
fn map_of(alloc: Global, entries: &[Entry]) -> Result<Map, AllocError> {
    let mut map = Map::new(alloc);
    for (key, value) in entries {
        let value = owned(alloc, *value)?;
        let key = String::from_str(alloc, *key)?;
        map.insert(key, value)?;
    }
    Ok(map)
}

/// The entries of a map, a cell that is read as it, and the cell that is written for it.
type Row = (&'static [Entry], &'static [u8], &'static [u8]);

const MAPS: [Row; 4] = [
    (&[], &[0; 4], &[0; 4]),
    (&[("a", None)], &TWICE, &NULL),
    (&[("a", None)], b"\0\0\0\x01\0\0\0\x01a\x80\0\0\0", &NULL),
    (&[("c", None), ("a", Some("b"))], &TWO, &TWO),
];

/// Tests that the map is written as its cell, and read from the other one.
fn is_spelled(alloc: Global, ty: &Type, (entries, cell, written): Row) -> Result<(), Fail> {
    let map = map_of(alloc, entries)?;
    writes(alloc, &map, ty, written)?;
    let found: Map = read(alloc, ty, Some(cell))?;
    holds(found == map, "another map")?;
    rewrites::<Map>(alloc, ty, cell, written)
}

#[test]
fn maps_have_their_cells(rt: HostRuntime) -> Result<(), Fail> {
    let ty = hstore(rt.alloc())?;
    for row in MAPS {
        is_spelled(rt.alloc(), &ty, row)?;
    }
    Ok(())
}

#[test]
fn entries_are_appended(rt: HostRuntime) -> Result<(), Fail> {
    let alloc = rt.alloc();
    let mut out = BytesMut::new(alloc);
    hstore_to_sql(alloc, &[("a", Some("b")), ("c", None)], &mut out)?;
    same(out.as_slice(), &TWO)
}

const DAMAGED: [(Option<&[u8]>, u32); 4] = [
    (Some(b"\0\0\0\x01\xff\xff\xff\xff"), KEY_LENGTH),
    (Some(b"\0\0\0\x01\0\0\0\x01\xff"), UTF8),
    (Some(&[0, 0, 0, 0, 0]), SIZE),
    (None, WAS_NULL),
];

#[test]
fn damaged_cells_are_refused(rt: HostRuntime) -> Result<(), Fail> {
    let ty = hstore(rt.alloc())?;
    refuses::<Map>(rt.alloc(), &ty, &DAMAGED)?;
    refuses_fronts::<Map>(rt.alloc(), &ty, &TWO, &[])
}

/// Tests that the two entries of a cell are returned in their order.
fn gives_both(alloc: Global) -> Result<(), Fault> {
    let Ok(mut entries) = hstore_from_sql(alloc, &TWO) else {
        return Err(Fault::user("hstore_from_sql"));
    };
    let first = entries.next().transpose();
    yes(gives(first, Some(("a", Some("b")))), "the first entry")?;
    let second = entries.next().transpose();
    yes(gives(second, Some(("c", None))), "the second entry")?;
    yes(entries.next().is_none(), "the end of the hstore")
}

#[test]
fn entries_are_read_and_written_without_memory(rt: HostRuntime) -> Result<(), Fail> {
    answer_without_memory(rt.alloc(), |alloc, target| {
        gives_both(alloc)?;
        target.leave(TWO.len())?;
        let entries = [("a", Some("b")), ("c", None)];
        let appended = hstore_to_sql(alloc, &entries, &mut target.out).is_ok();
        yes(appended && target.has(&TWO), "hstore_to_sql")
    })
}

#[test]
fn null_is_no_map_without_memory(rt: HostRuntime) -> Result<(), Fail> {
    null_takes_no_memory::<Map>(rt.alloc(), &hstore(rt.alloc())?)
}
