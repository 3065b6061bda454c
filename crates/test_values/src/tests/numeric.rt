//! NUMERIC. The cells are those of a server's `numeric_send`, the damaged ones were sent to it by
//! COPY, and the texts with an exponent are those that PostgreSQL 15 reads and refuses.

use pg_numbers::types::{numeric_array_type, numeric_type};
use pg_numbers::{Decimal, Numeric};
use std::cmp::Ordering;
use std::test::Fail;
use test_support::code::{SIZE, USER, WAS_NULL};
use test_support::{displays, fault_code, reads, refuses, rewrites, same, writes};

/// Cells, and the cells that the server writes for their values.
const REWRITTEN: [(&[u8], &[u8]); 12] = [
    // 10^131071 and 10^-16383, the greatest weight and scale
    (
        &[0, 1, 0x7f, 0xff, 0, 0, 0, 0, 0x03, 0xe8],
        &[0, 1, 0x7f, 0xff, 0, 0, 0, 0, 0x03, 0xe8],
    ),
    (
        &[0, 1, 0xf0, 0, 0, 0, 0x3f, 0xff, 0, 10],
        &[0, 1, 0xf0, 0, 0, 0, 0x3f, 0xff, 0, 10],
    ),
    // 1.5 and 1.5678 of smaller scales, of which the decimals are not shown
    (
        &[0, 2, 0, 0, 0, 0, 0, 0, 0, 1, 0x13, 0x88],
        &[0, 1, 0, 0, 0, 0, 0, 0, 0, 1],
    ),
    (
        &[0, 2, 0, 0, 0, 0, 0, 3, 0, 1, 0x16, 0x2e],
        &[0, 2, 0, 0, 0, 0, 0, 3, 0, 1, 0x16, 0x26],
    ),
    (
        &[0, 1, 0xff, 0xff, 0x40, 0, 0, 3, 0, 7],
        &[0, 0, 0, 0, 0, 0, 0, 3],
    ),
    // zeros before the first digit and after the last one
    (
        &[0, 3, 0, 2, 0, 0, 0, 0, 0, 0, 0, 0, 0, 7],
        &[0, 1, 0, 0, 0, 0, 0, 0, 0, 7],
    ),
    (
        &[0, 3, 0, 2, 0, 0, 0, 0, 0, 7, 0, 0, 0, 0],
        &[0, 1, 0, 2, 0, 0, 0, 0, 0, 7],
    ),
    // a negative zero of a weight
    (&[0, 0, 0, 100, 0x40, 0, 0, 5], &[0, 0, 0, 0, 0, 0, 0, 5]),
    (
        &[0, 1, 0x80, 0, 0, 0, 0, 0, 0, 1],
        &[0, 0, 0, 0, 0, 0, 0, 0],
    ),
    // NaN and an infinity with other parts
    (&[0, 0, 0, 0, 0xc0, 0, 0, 5], &[0, 0, 0, 0, 0xc0, 0, 0, 0]),
    (
        &[0, 1, 0, 7, 0xc0, 0, 0, 0, 0x27, 0x0f],
        &[0, 0, 0, 0, 0xc0, 0, 0, 0],
    ),
    (
        &[0, 1, 0, 7, 0xd0, 0, 0, 0, 0, 1],
        &[0, 0, 0, 0, 0xd0, 0, 0, 32],
    ),
];

/// Cells that the server refuses, and the numbers of their faults.
const REFUSED: [(Option<&[u8]>, u32); 9] = [
    (None, WAS_NULL),
    // a sign
    (Some(&[0, 1, 0, 0, 0x80, 0, 0, 0, 0, 1]), USER),
    (Some(&[0, 1, 0, 0, 0x40, 1, 0, 0, 0, 1]), USER),
    // a scale
    (Some(&[0, 1, 0, 0, 0, 0, 0x40, 0, 0, 1]), USER),
    (Some(&[0, 0, 0, 0, 0xc0, 0, 0x40, 0]), USER),
    // a digit
    (Some(&[0, 1, 0, 0, 0, 0, 0, 0, 0x27, 0x10]), USER),
    (Some(&[0, 1, 0, 7, 0xc0, 0, 0, 0, 0x27, 0x10]), USER),
    // another number of bytes
    (Some(&[0, 1, 0, 0, 0, 0, 0, 0, 0, 1, 0, 2]), SIZE),
    (Some(&[0xff, 0xff, 0, 0, 0, 0, 0, 0, 0, 1]), SIZE),
];

#[test]
fn cells_are_those_of_the_server(rt: HostRuntime) -> Result<(), Fail> {
    let ty = numeric_type(rt.alloc())?;
    for (cell, written) in REWRITTEN {
        rewrites::<Numeric>(rt.alloc(), &ty, cell, written)?;
    }
    refuses::<Numeric>(rt.alloc(), &ty, &REFUSED)
}

/// '{1.5,NULL,NaN}'::numeric[]
const ARRAY: [u8; 52] = [
    0, 0, 0, 1, 0, 0, 0, 1, 0, 0, 0x06, 0xa4, 0, 0, 0, 3, 0, 0, 0, 1, 0, 0, 0, 12, 0, 2, 0, 0, 0,
    0, 0, 1, 0, 1, 0x13, 0x88, 0xff, 0xff, 0xff, 0xff, 0, 0, 0, 8, 0, 0, 0, 0, 0xc0, 0, 0, 0,
];

#[test]
fn an_array_holds_it(rt: HostRuntime) -> Result<(), Fail> {
    let ty = numeric_array_type(rt.alloc())?;
    rewrites::<Vec<Option<Numeric>>>(rt.alloc(), &ty, &ARRAY, &ARRAY)
}

/// A number: whether it is negative, its weight, its scale and its digits.
type Parts = (bool, i16, u16, &'static [u16]);

fn has_parts(number: &Decimal, (negative, weight, scale, digits): Parts) -> Result<(), Fail> {
    same(number.is_negative(), negative)?;
    same((number.weight(), number.scale()), (weight, scale))?;
    same(number.digits(), digits)
}

#[test]
fn a_number_has_its_parts(rt: HostRuntime) -> Result<(), Fail> {
    let number = Decimal::new(rt.alloc(), true, 2, 1, &[0, 7, 0, 1234])?;
    has_parts(&number, (true, 1, 1, &[7, 0, 1000]))?;
    let longest = Decimal::parse(rt.alloc(), "9.99e131071")?;
    has_parts(&longest, (false, 32_767, 0, &[9990]))
}

#[test]
fn an_integer_is_a_number(rt: HostRuntime) -> Result<(), Fail> {
    let least = Decimal::from_i64(rt.alloc(), i64::MIN)?;
    displays(rt.alloc(), &least, "-9223372036854775808")?;
    same(least.to_i64(), Some(i64::MIN))?;
    let wide = Decimal::from_i128(rt.alloc(), i128::MAX)?;
    displays(rt.alloc(), &wide, "170141183460469231731687303715884105727")?;
    same(wide.to_i128(), Some(i128::MAX))
}

#[test]
fn the_order_is_the_servers(rt: HostRuntime) -> Result<(), Fail> {
    let rows = [
        ("-Infinity", "-1e131071", Ordering::Less),
        ("-2.5", "-2", Ordering::Less),
        ("-0.0001", "0", Ordering::Less),
        ("2.5", "2", Ordering::Greater),
        ("1.5", "1.500000000", Ordering::Equal),
        ("Infinity", "9.99e131071", Ordering::Greater),
        ("NaN", "Infinity", Ordering::Greater),
        ("NaN", "NaN", Ordering::Equal),
    ];
    for (one, other, order) in rows {
        let one = Numeric::parse(rt.alloc(), one)?;
        let other = Numeric::parse(rt.alloc(), other)?;
        same(one.cmp(&other), order)?;
    }
    Ok(())
}

/// Texts of the server (`numeric_out`), and their cells.
const TEXTS: [(&str, &[u8]); 22] = [
    ("NaN", &[0, 0, 0, 0, 0xc0, 0, 0, 0]),
    ("Infinity", &[0, 0, 0, 0, 0xd0, 0, 0, 0x20]),
    ("-Infinity", &[0, 0, 0, 0, 0xf0, 0, 0, 0x20]),
    ("0", &[0, 0, 0, 0, 0, 0, 0, 0]),
    ("0.00", &[0, 0, 0, 0, 0, 0, 0, 2]),
    ("1", &[0, 1, 0, 0, 0, 0, 0, 0, 0, 1]),
    ("-1", &[0, 1, 0, 0, 0x40, 0, 0, 0, 0, 1]),
    ("1.50", &[0, 2, 0, 0, 0, 0, 0, 2, 0, 1, 0x13, 0x88]),
    (
        "12345.6789",
        &[0, 3, 0, 1, 0, 0, 0, 4, 0, 1, 9, 0x29, 0x1a, 0x85],
    ),
    ("0.0001", &[0, 1, 0xff, 0xff, 0, 0, 0, 4, 0, 1]),
    ("0.00012", &[0, 2, 0xff, 0xff, 0, 0, 0, 5, 0, 1, 7, 0xd0]),
    ("10000", &[0, 1, 0, 1, 0, 0, 0, 0, 0, 1]),
    ("100000000", &[0, 1, 0, 2, 0, 0, 0, 0, 0, 1]),
    ("-0.5", &[0, 1, 0xff, 0xff, 0x40, 0, 0, 1, 0x13, 0x88]),
    (
        "9999999999999999999",
        &[
            0, 5, 0, 4, 0, 0, 0, 0, 3, 0xe7, 0x27, 0x0f, 0x27, 0x0f, 0x27, 0x0f, 0x27, 0x0f,
        ],
    ),
    ("100000000000000000000", &[0, 1, 0, 5, 0, 0, 0, 0, 0, 1]),
    (
        "0.00000000000000000001",
        &[0, 1, 0xff, 0xfb, 0, 0, 0, 0x14, 0, 1],
    ),
    (
        "9223372036854775807",
        &[
            0, 5, 0, 4, 0, 0, 0, 0, 3, 0x9a, 0x0d, 0x2c, 1, 0x70, 0x15, 0x65, 0x16, 0xaf,
        ],
    ),
    (
        "-9223372036854775808",
        &[
            0, 5, 0, 4, 0x40, 0, 0, 0, 3, 0x9a, 0x0d, 0x2c, 1, 0x70, 0x15, 0x65, 0x16, 0xb0,
        ],
    ),
    ("0.10", &[0, 1, 0xff, 0xff, 0, 0, 0, 2, 3, 0xe8]),
    (
        "123456789012.000000000000",
        &[0, 3, 0, 2, 0, 0, 0, 0x0c, 4, 0xd2, 0x16, 0x2e, 0x23, 0x34],
    ),
    (
        "170141183460469231731687303715884105727",
        &[
            0, 0x0a, 0, 9, 0, 0, 0, 0, 0, 0xaa, 5, 0x83, 0x20, 0x9a, 1, 0xd5, 9, 0x0d, 0x0c, 0x60,
            0x1c, 0x87, 0x1b, 0xf6, 0x20, 0xda, 0x16, 0x5f,
        ],
    ),
];

#[test]
fn a_text_is_the_servers(rt: HostRuntime) -> Result<(), Fail> {
    let ty = numeric_type(rt.alloc())?;
    for (text, cell) in TEXTS {
        let number = Numeric::parse(rt.alloc(), text)?;
        displays(rt.alloc(), &number, text)?;
        writes(rt.alloc(), &number, &ty, cell)?;
        reads(rt.alloc(), &ty, cell, number)?;
    }
    Ok(())
}

/// Texts that the server reads as the value of another text, and that text.
const OTHER_TEXTS: [(&str, &str); 33] = [
    (" 1 ", "1"),
    ("\x0b1\x0b", "1"),
    ("\r\x0c\t -12.50 \n", "-12.50"),
    ("+1", "1"),
    ("00012", "12"),
    ("1.", "1"),
    ("-.5", "-0.5"),
    ("-0", "0"),
    ("-0.00", "0.00"),
    ("0000000012345.6", "12345.6"),
    ("nan", "NaN"),
    ("\tNAN\n", "NaN"),
    ("+Infinity", "Infinity"),
    ("-INF", "-Infinity"),
    ("1E5", "100000"),
    (" 1e+5 ", "100000"),
    ("1.50e1", "15.0"),
    ("1.50e2", "150"),
    ("1.5e-3", "0.0015"),
    ("-.5E-1", "-0.05"),
    ("1.e0", "1"),
    ("1e-0", "1"),
    ("-0e5", "0"),
    ("0e-5", "0.00000"),
    ("0.00e1", "0.0"),
    ("0.0000e131076", "0"),
    ("0e1073741822", "0"),
    ("1e0000000000000000000000005", "100000"),
    ("123456e-8", "0.00123456"),
    ("123456.789e5", "12345678900"),
    ("0.00012e4", "1.2"),
    ("000120e-4", "0.0120"),
    ("1e-20", "0.00000000000000000001"),
];

/// Texts that the server refuses.
const NO_TEXTS: [&str; 27] = [
    "",
    " ",
    "-",
    ".",
    "1.2.3",
    "1 2",
    "+NaN",
    "infin",
    "infinity0",
    "+-inf",
    "1\u{a0}",
    "1-",
    "1e",
    "1e+",
    "1e+-5",
    "e5",
    "1e5.0",
    "NaNe1",
    "1e131072",
    "0.1e131073",
    "1e-16384",
    "1.5e-16383",
    "0e-16384",
    "0e1073741823",
    // These wrap to 5 in 32 bits, and in 64.
    "1e4294967301",
    "1e18446744073709551621",
    "0e-99999999999999999999",
];

#[test]
fn other_texts_are_read_or_refused(rt: HostRuntime) -> Result<(), Fail> {
    for (text, shown) in OTHER_TEXTS {
        displays(rt.alloc(), &Numeric::parse(rt.alloc(), text)?, shown)?;
    }
    for text in NO_TEXTS {
        same(fault_code(Numeric::parse(rt.alloc(), text)), USER)?;
    }
    Ok(())
}
