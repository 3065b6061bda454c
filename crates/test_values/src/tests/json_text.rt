//! JSON and JSONB as their texts. The rows are by hand: the text, and in JSONB the version before
//! it.

use postgres_types::json_text::laws::same_json_text;
use postgres_types::{JsonText, Type};
use std::test::Fail;
use test_support::{has_cells, holds, read, rewrites, writes_null};

const JSON: [(JsonText<&str>, &[u8]); 2] = [
    (JsonText("-1.5e400"), b"-1.5e400"),
    (JsonText(" {\"b\":1, \"b\":2}"), b" {\"b\":1, \"b\":2}"),
];

const JSONB: [(JsonText<&str>, &[u8]); 2] = [
    (JsonText(""), b"\x01"),
    (JsonText("\"\u{e9}\""), b"\x01\"\xc3\xa9\""),
];

#[test]
fn a_document_is_its_text(rt: HostRuntime) -> Result<(), Fail> {
    has_cells(rt.alloc(), &Type::JSON, &JSON, &[])?;
    has_cells(rt.alloc(), &Type::JSONB, &JSONB, &[])?;
    // NULL is that of the text, in JSONB too.
    writes_null(rt.alloc(), &JsonText(None::<&str>), &Type::JSONB)
}

/// '{1.0,NULL}'::jsonb[]
const ARRAY: [u8; 32] = [
    0, 0, 0, 1, 0, 0, 0, 1, 0, 0, 0x0e, 0xda, 0, 0, 0, 2, 0, 0, 0, 1, 0, 0, 0, 4, 1, b'1', b'.',
    b'0', 0xff, 0xff, 0xff, 0xff,
];

#[test]
fn a_document_can_be_owned(rt: HostRuntime) -> Result<(), Fail> {
    let alloc = rt.alloc();
    let owned = JsonText(String::from_str(alloc, "1.0")?);
    let found = read::<JsonText<String>>(alloc, &Type::JSON, Some(b"1.0"))?;
    holds(same_json_text(&found, &owned), "different")?;
    rewrites::<Vec<Option<JsonText<String>>>>(alloc, &Type::JSONB_ARRAY, &ARRAY, &ARRAY)
}
