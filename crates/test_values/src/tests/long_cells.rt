//! Texts and bytes of 2 MB, a JSON text of 1 MB and a map of 10,000 entries. If there is enough
//! memory they are written and read, which no contract states.

use postgres_types::private::BytesMut;
use postgres_types::{IsNull, ToSql, Type};
use serde_json::Value;
use std::alloc::Global;
use std::collections::HashMap;
use std::test::Fail;
use test_support::{holds, read, same, simple_type};

/// The length of a cell, in bytes.
const LEN: usize = 2_097_152;

/// Tests that the value is written as the cell.
fn is_written<T: ToSql>(alloc: Global, value: &T, ty: &Type, cell: &[u8]) -> Result<(), Fail> {
    let mut out = BytesMut::new(alloc);
    same(value.to_sql_checked(alloc, ty, &mut out)?, IsNull::No)?;
    holds(out.as_slice() == cell, "another cell")
}

#[test]
fn long_bytes_are_read_and_written(rt: HostRuntime) -> Result<(), Fail> {
    let alloc = rt.alloc();
    let cell = vec![in alloc; b'x'; LEN]?;
    let bytes: Vec<u8> = read(alloc, &Type::BYTEA, Some(cell.as_slice()))?;
    is_written(alloc, &bytes, &Type::BYTEA, cell.as_slice())
}

#[test]
fn long_texts_are_read_and_written(rt: HostRuntime) -> Result<(), Fail> {
    let alloc = rt.alloc();
    let cell = vec![in alloc; b'x'; LEN]?;
    let text: String = read(alloc, &Type::TEXT, Some(cell.as_slice()))?;
    is_written(alloc, &text, &Type::TEXT, cell.as_slice())
}

/// The document is one string.
#[test]
fn long_documents_are_read_and_written(rt: HostRuntime) -> Result<(), Fail> {
    let alloc = rt.alloc();
    let mut cell = vec![in alloc; b'x'; 1_048_576]?;
    cell.insert(0, b'"')?;
    cell.push(b'"')?;
    let document: Value = read(alloc, &Type::JSON, Some(cell.as_slice()))?;
    is_written(alloc, &document, &Type::JSON, cell.as_slice())
}

type Map = HashMap<String, Option<String>>;

/// The map of `0000` to `9999` to NULL.
fn long_map(alloc: Global) -> Result<Map, Fail> {
    let mut map = Map::new(alloc);
    for number in 0..10_000u32 {
        let key = format!(in alloc; "{number:04}")?;
        map.insert(key, None)?;
    }
    Ok(map)
}

#[test]
fn a_long_map_is_written_and_read(rt: HostRuntime) -> Result<(), Fail> {
    let alloc = rt.alloc();
    let ty = simple_type(alloc, "hstore", 100_002, "public")?;
    let map = long_map(alloc)?;
    let mut cell = BytesMut::new(alloc);
    same(map.to_sql_checked(alloc, &ty, &mut cell)?, IsNull::No)?;
    let back: Map = read(alloc, &ty, Some(cell.as_slice()))?;
    holds(back == map, "another map")
}
