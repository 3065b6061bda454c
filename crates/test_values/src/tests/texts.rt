//! Texts: a table of rows for each format.

use postgres_types::protocol::{lquery_to_sql, ltxtquery_to_sql};
use postgres_types::{Kind, Type};
use std::borrow::CowStr;
use std::boxed::BoxedStr;
use std::test::Fail;
use test_support::code::{TEXT_VERSION, UTF8};
use test_support::{
    accepts, appends, has_cells, null_takes_no_memory, refuses, rewrites, simple_type, spells,
    takes_no_memory, user_type, writes_by_room,
};

const TEXT: [(&str, &[u8]); 3] = [
    ("", b""),
    ("\u{e9}", &[0xc3, 0xa9]),
    ("a\0b", &[0x61, 0, 0x62]),
];

const VERSIONED: [(&str, &[u8]); 3] = [
    ("", &[1]),
    ("a.b", &[1, 0x61, 0x2e, 0x62]),
    ("*.a", &[1, 0x2a, 0x2e, 0x61]),
];

/// U+0000 in two bytes, a surrogate, and U+110000.
const DAMAGED_TEXT: [(Option<&[u8]>, u32); 3] = [
    (Some(&[0xc0, 0x80]), UTF8),
    (Some(&[0xed, 0xa0, 0x80]), UTF8),
    (Some(&[0xf4, 0x90, 0x80, 0x80]), UTF8),
];

/// The fronts of a text, of which one is the empty text, and other cells.
const DAMAGED_VERSIONED: [(Option<&[u8]>, u32); 4] = [
    (Some(&[]), TEXT_VERSION),
    (Some(&[1]), 0),
    (Some(&[0x61]), TEXT_VERSION),
    (Some(&[1, 0xff]), UTF8),
];

#[test]
fn texts_are_their_bytes(rt: HostRuntime) -> Result<(), Fail> {
    let alloc = rt.alloc();
    let built_in = [
        Type::VARCHAR,
        Type::TEXT,
        Type::BPCHAR,
        Type::NAME,
        Type::UNKNOWN,
    ];
    for ty in &built_in {
        has_cells(alloc, ty, &TEXT, &DAMAGED_TEXT)?;
    }
    Ok(())
}

#[test]
fn some_texts_have_a_version(rt: HostRuntime) -> Result<(), Fail> {
    let alloc = rt.alloc();
    for name in ["ltree", "lquery", "ltxtquery"] {
        let ty = simple_type(alloc, name, 100_001, "app")?;
        spells(alloc, &ty, &VERSIONED)?;
        refuses::<String>(alloc, &ty, &DAMAGED_VERSIONED)?;
    }
    appends(
        alloc,
        |alloc, v, out| lquery_to_sql(alloc, v, out),
        &VERSIONED,
    )?;
    appends(
        alloc,
        |alloc, v, out| ltxtquery_to_sql(alloc, v, out),
        &VERSIONED,
    )
}

#[test]
fn owned_texts_are_read_and_written(rt: HostRuntime) -> Result<(), Fail> {
    let alloc = rt.alloc();
    let cell = [0xc3, 0xa9];
    rewrites::<String>(alloc, &Type::TEXT, &cell, &cell)?;
    rewrites::<BoxedStr>(alloc, &Type::NAME, &cell, &cell)?;
    rewrites::<CowStr>(alloc, &Type::BPCHAR, &cell, &cell)
}

#[test]
fn owned_texts_are_written_without_memory(rt: HostRuntime) -> Result<(), Fail> {
    let alloc = rt.alloc();
    let text = String::from_str(alloc, "ab")?;
    writes_by_room(alloc, &Type::TEXT, &text, b"ab")?;
    writes_by_room(alloc, &Type::TEXT, &text.into_boxed_str(), b"ab")?;
    let row = [(CowStr::Borrowed("ab"), b"ab".as_slice())];
    takes_no_memory(alloc, &Type::TEXT, &row)
}

#[test]
fn null_is_no_owned_text_without_memory(rt: HostRuntime) -> Result<(), Fail> {
    null_takes_no_memory::<String>(rt.alloc(), &Type::TEXT)?;
    null_takes_no_memory::<BoxedStr>(rt.alloc(), &Type::TEXT)
}

#[test]
fn a_name_decides_whether_a_user_type_is_accepted(rt: HostRuntime) -> Result<(), Fail> {
    let alloc = rt.alloc();
    let citext = user_type(alloc, "citext", 99_000, Kind::Enum(Vec::new(alloc)), "app")?;
    let text = simple_type(alloc, "text", 25, "pg_catalog")?;
    accepts::<String>(&[(citext, true), (text, false)])
}
