//! Faults: their numbers and texts.

use postgres_types::{Fault, Type, WasNull, WrongType};
use std::alloc::Global;
use std::test::Fail;
use test_support::{code, displays, same};

/// The faults that a constant can hold: the number, the fault and its text.
const FAULTS: [(u32, Fault, &str); 21] = [
    (code::MEMORY, Fault::Memory, "out of memory"),
    (
        code::WAS_NULL,
        Fault::WasNull,
        "a Postgres value was `NULL`",
    ),
    (code::SIZE, Fault::Size, "invalid buffer size"),
    (code::UTF8, Fault::Utf8, "invalid UTF-8"),
    (code::COUNT, Fault::Count, "invalid count"),
    (code::KEY_LENGTH, Fault::KeyLength, "invalid key length"),
    (
        code::DIMENSIONS,
        Fault::Dimensions,
        "array contains too many dimensions",
    ),
    (
        code::TOO_FEW,
        Fault::TooFew {
            expected: 3,
            got: 2,
        },
        "too few elements in array (expected 3, got 2)",
    ),
    (
        code::EXCESS,
        Fault::Excess { expected: 1 },
        "excess elements in array (expected 1, got more than that)",
    ),
    (code::DECODE, Fault::Decode, "value too large to decode"),
    (
        code::TRANSMIT,
        Fault::Transmit,
        "value too large to transmit",
    ),
    (
        code::JSON_VERSION,
        Fault::JsonVersion,
        "unsupported JSONB encoding version",
    ),
    (
        code::TEXT_VERSION,
        Fault::TextVersion,
        "unsupported text version",
    ),
    (code::JSON_TEXT, Fault::JsonText, "invalid JSON"),
    (
        code::JSON_NUMBER,
        Fault::JsonNumber,
        "JSON number is not a whole number",
    ),
    (code::FAMILY, Fault::Family, "invalid IP family"),
    (code::NETMASK, Fault::Netmask, "invalid netmask"),
    (
        code::ADDRESS_LENGTH,
        Fault::AddressLength,
        "invalid address length",
    ),
    (code::HOST_BITS, Fault::HostBits, "host bits are set"),
    (code::FIELD_COUNT, Fault::FieldCount, "invalid field count"),
    (code::FIELD_OID, Fault::FieldOid, "unexpected field type"),
];

fn have_texts(alloc: Global, rows: &[(u32, Fault, &str)]) -> Result<(), Fail> {
    for (number, fault, text) in rows {
        same(fault.code(), *number)?;
        displays(alloc, fault, text)?;
    }
    Ok(())
}

#[test]
fn each_fault_has_its_number_and_text(rt: HostRuntime) -> Result<(), Fail> {
    have_texts(rt.alloc(), &FAULTS)?;
    let wrong = WrongType::new(Type::INT4, "String");
    let text = "cannot convert between the Rust type `String` and the Postgres type `int4`";
    let rows = [
        (code::WRONG_TYPE, Fault::WrongType(wrong), text),
        (code::USER, Fault::user("odd"), "odd"),
    ];
    have_texts(rt.alloc(), &rows)?;
    displays(rt.alloc(), &WasNull, "a Postgres value was `NULL`")
}
