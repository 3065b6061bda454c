//! Values from texts, as `float8in` and `float4in` read them.

use pg_numbers::{Float4, Float8};
use std::test::Fail;
use test_support::same;

/// Texts, and the bits of their values of FLOAT8; None if it is refused.
const FLOAT8_VALUES: [(&str, Option<u64>); 35] = [
    ("", None),
    (" ", None),
    ("+1", Some(0x3ff0_0000_0000_0000)),
    ("--1", None),
    (".5", Some(0x3fe0_0000_0000_0000)),
    ("5.", Some(0x4014_0000_0000_0000)),
    (".", None),
    ("1e", None),
    ("1e+", None),
    ("1E5", Some(0x40f8_6a00_0000_0000)),
    ("inf", Some(0x7ff0_0000_0000_0000)),
    ("-INF", Some(0xfff0_0000_0000_0000)),
    ("+Infinity", Some(0x7ff0_0000_0000_0000)),
    ("infin", None),
    ("nan", Some(0x7ff8_0000_0000_0000)),
    ("-nAn", Some(0x7ff8_0000_0000_0000)),
    ("1e400", None),
    ("-1e400", None),
    ("1e-400", None),
    ("0e-400", Some(0x0000_0000_0000_0000)),
    ("0e999", Some(0x0000_0000_0000_0000)),
    ("2e-324", None),
    ("3e-324", Some(0x0000_0000_0000_0001)),
    ("1.7976931348623158e308", Some(0x7fef_ffff_ffff_ffff)),
    ("1.7976931348623159e308", None),
    ("1_0", None),
    ("1,5", None),
    ("1.5f", None),
    ("00012", Some(0x4028_0000_0000_0000)),
    ("1.2.3", None),
    ("9007199254740993", Some(0x4340_0000_0000_0000)),
    // The server takes white space, hexadecimal numerals and payloads.
    (" 1", None),
    ("1 ", None),
    ("0x10", None),
    ("nan(1)", None),
];

/// Texts, and the bits of their values of FLOAT4; None if it is refused.
const FLOAT4_VALUES: [(&str, Option<u32>); 8] = [
    ("3.4028235e38", Some(0x7f7f_ffff)),
    ("3.4028236e38", None),
    ("1e39", None),
    ("1e-45", Some(0x0000_0001)),
    ("7e-46", None),
    ("8e-46", Some(0x0000_0001)),
    ("0.1", Some(0x3dcc_cccd)),
    ("16777217", Some(0x4b80_0000)),
];

#[test]
fn texts_are_parsed(_rt: HostRuntime) -> Result<(), Fail> {
    for (text, bits) in FLOAT8_VALUES {
        let value = text.parse::<Float8>().ok();
        same((text, value.map(|value| value.to_bits())), (text, bits))?;
    }
    for (text, bits) in FLOAT4_VALUES {
        let value = text.parse::<Float4>().ok();
        same((text, value.map(|value| value.to_bits())), (text, bits))?;
    }
    Ok(())
}
