//! JSON and JSONB as `serde_json::Value`.

use postgres_types::Type;
use serde::{Deserialize, Serialize};
use serde_json::{Value, json};
use std::alloc::Global;
use std::test::Fail;
use test_support::code::{JSON_NUMBER, JSON_TEXT, JSON_VERSION, SIZE, WAS_NULL};
use test_support::{null_takes_no_memory, read, reads, refuses, refuses_value, same, writes};

#[test]
fn scalars_are_read_and_written(rt: HostRuntime) -> Result<(), Fail> {
    let rows = [
        (Value::Null, "null"),
        (Value::from(u64::MAX), "18446744073709551615"),
        (Value::from(i64::MIN), "-9223372036854775808"),
    ];
    for (document, text) in rows {
        writes(rt.alloc(), &document, &Type::JSON, text.as_bytes())?;
        reads(rt.alloc(), &Type::JSON, text.as_bytes(), document)?;
    }
    Ok(())
}

/// Texts, and the JSONB cells of their documents.
const DOCUMENTS: [(&[u8], &[u8]); 5] = [
    (b"{}", b"\x01{}"),
    (
        b"{\"b\":1,\"a\":[true,null]}",
        b"\x01{\"a\":[true,null],\"b\":1}",
    ),
    (
        b" { \"b\" : 1, \"a\" : [ true, null ] }\n",
        b"\x01{\"a\":[true,null],\"b\":1}",
    ),
    (b"{\"a\":1.5,\"a\":2}", b"\x01{\"a\":2}"),
    (b"\"\\u00e9\\n\"", b"\x01\"\xc3\xa9\\n\""),
];

#[test]
fn documents_are_written_compactly(rt: HostRuntime) -> Result<(), Fail> {
    let alloc = rt.alloc();
    for (text, cell) in DOCUMENTS {
        let document: Value = read(alloc, &Type::JSON, Some(text))?;
        writes(alloc, &document, &Type::JSONB, cell)?;
        reads(alloc, &Type::JSONB, cell, document)?;
    }
    reads(alloc, &Type::JSONB, b"\x01{}", json!(in alloc; {})?)
}

/// Texts that are not JSON, and texts with a number that is neither an `i64` nor a `u64`.
const REFUSED_JSON: [(Option<&[u8]>, u32); 8] = [
    (Some(b""), JSON_TEXT),
    (Some(b"{"), JSON_TEXT),
    (Some(b"1e400"), JSON_TEXT),
    (Some(b"\"\xc3\""), JSON_TEXT),
    (Some(b"1.5"), JSON_NUMBER),
    (Some(b"-0"), JSON_NUMBER),
    (Some(b"18446744073709551616"), JSON_NUMBER),
    (Some(b"{\"a\":[1,{\"b\":[2,1e0]}]}"), JSON_NUMBER),
];

/// Among them the fronts of an empty object.
const REFUSED_JSONB: [(Option<&[u8]>, u32); 5] = [
    (Some(b""), SIZE),
    (Some(b"\x01"), JSON_TEXT),
    (Some(b"\x01{"), JSON_TEXT),
    (Some(b"\x02{}"), JSON_VERSION),
    (None, WAS_NULL),
];

#[test]
fn other_cells_and_numbers_are_refused(rt: HostRuntime) -> Result<(), Fail> {
    let alloc = rt.alloc();
    refuses::<Value>(alloc, &Type::JSON, &REFUSED_JSON)?;
    refuses::<Value>(alloc, &Type::JSONB, &REFUSED_JSONB)?;
    refuses_value(alloc, &Value::from(1.5f64), &Type::JSON, JSON_NUMBER)
}

#[derive(Debug, Drop, PartialEq, Serialize, Deserialize)]
struct Moon {
    name: String,
    orbit_days: u64,
    craters: Vec<u32>,
}

/// The moon's text, with its keys in order.
const MOON: &str = "{\"craters\":[7,9],\"name\":\"Io\",\"orbit_days\":2}";

fn make_moon(alloc: Global) -> Result<Moon, Fail> {
    Ok(Moon {
        name: String::from_str(alloc, "Io")?,
        orbit_days: 2,
        craters: Vec::from_slice(alloc, &[7u32, 9])?,
    })
}

/// The document of the moon.
fn moon_document(alloc: Global) -> Result<Value, Fail> {
    Ok(json!(in alloc; {"name": "Io", "orbit_days": 2, "craters": [7, 9]})?)
}

#[test]
fn the_text_of_a_serde_type_is_read(rt: HostRuntime) -> Result<(), Fail> {
    let alloc = rt.alloc();
    let text = serde_json::to_string(alloc, &make_moon(alloc)?)?;
    let document = moon_document(alloc)?;
    reads(alloc, &Type::JSON, text.as_str().as_bytes(), document)
}

#[test]
fn the_written_text_is_of_the_serde_type(rt: HostRuntime) -> Result<(), Fail> {
    let alloc = rt.alloc();
    writes(alloc, &moon_document(alloc)?, &Type::JSON, MOON.as_bytes())?;
    let found: Moon = serde_json::from_str(alloc, MOON)?;
    same(found, make_moon(alloc)?)
}

#[test]
fn null_is_no_document_without_memory(rt: HostRuntime) -> Result<(), Fail> {
    null_takes_no_memory::<Value>(rt.alloc(), &Type::JSON)
}
