//! The texts of faults, each variant's.

use pg_client::catalog::{RefusedType, TypeFault};
use pg_client::{
    CopyFault, DescriptionFault, HeaderFault, Place, PlacedFault, RefusedDescription, TupleFault,
};
use pg_messages::backend::MessageFault;
use postgres_types::Fault;
use std::test::Fail;
use test_support::displays;

/// Places, and the texts of `Size` there. (The client of the guide prints one of a named column.)
const PLACES: [(Place, &str); 6] = [
    (Place::Row, "row: invalid buffer size"),
    (
        Place::Columns {
            expected: 65_535,
            got: 10,
        },
        "row (expected 65535 columns, got 10): invalid buffer size",
    ),
    (Place::Column(2, None), "column 3: invalid buffer size"),
    (Place::Bind, "bind: invalid buffer size"),
    (
        Place::Parameters {
            expected: 65_535,
            got: 10,
        },
        "bind (expected 65535 parameters, got 10): invalid buffer size",
    ),
    (
        Place::Parameter(65_535),
        "parameter 65536: invalid buffer size",
    ),
];

/// Faults of descriptions.
const DESCRIPTIONS: [(DescriptionFault, &str); 4] = [
    (DescriptionFault::Memory, "column 3: out of memory"),
    (DescriptionFault::Damaged, "column 3: invalid description"),
    (
        DescriptionFault::Unknown(16_400),
        "column 3: no type has OID 16400",
    ),
    (DescriptionFault::TextFormat, "column 3: text format"),
];

#[test]
fn faults_at_a_place_have_texts(rt: HostRuntime) -> Result<(), Fail> {
    for (place, text) in PLACES {
        displays(rt.alloc(), &PlacedFault::new(place, Fault::Size), text)?;
    }
    for (fault, text) in DESCRIPTIONS {
        let refused = RefusedDescription::new(Place::Column(2, None), fault);
        displays(rt.alloc(), &refused, text)?;
    }
    Ok(())
}

/// Faults of messages.
const MESSAGES: [(MessageFault, &str); 3] = [
    (MessageFault::Length(3), "a message of length 3"),
    (MessageFault::Kind(b'!'), "a message of an unknown kind, 33"),
    (MessageFault::Body(b'Z'), "a damaged message of kind 90"),
];

/// Faults of a binary COPY.
const COPIES: [(CopyFault, &str); 9] = [
    (
        CopyFault::Header(HeaderFault::Signature),
        "header: not a binary COPY",
    ),
    (
        CopyFault::Header(HeaderFault::Oids),
        "header: tuples with OIDs",
    ),
    (
        CopyFault::Header(HeaderFault::Flags),
        "header: unknown critical flag",
    ),
    (
        CopyFault::Header(HeaderFault::Extension),
        "header: negative length of the header extension",
    ),
    (CopyFault::TruncatedHeader, "header: truncated"),
    (
        CopyFault::Tuple {
            row: 2,
            fault: TupleFault::Columns {
                expected: 3,
                got: -2,
            },
        },
        "row 2: -2 columns in place of 3",
    ),
    (
        CopyFault::Tuple {
            row: 2,
            fault: TupleFault::Length { column: 1 },
        },
        "row 2: column 1: negative length",
    ),
    (CopyFault::Truncated { row: 2 }, "row 2: truncated"),
    (CopyFault::Trailing, "bytes come after the trailer"),
];

/// Faults of the row of a type `node` with OID 101.
const TYPES: [(TypeFault, &str); 6] = [
    (TypeFault::Memory, "type \"node\" (OID 101): out of memory"),
    (
        TypeFault::Kind(120),
        "type \"node\" (OID 101): unknown kind 120",
    ),
    (
        TypeFault::Unknown(999),
        "type \"node\" (OID 101): no type has OID 999",
    ),
    (
        TypeFault::Recursive,
        "type \"node\" (OID 101): the type contains itself",
    ),
    (
        TypeFault::Fields,
        "type \"node\" (OID 101): fields with other numbers of names and types",
    ),
    (
        TypeFault::Duplicate,
        "type \"node\" (OID 101): another row has its OID",
    ),
];

#[test]
fn other_faults_have_texts(rt: HostRuntime) -> Result<(), Fail> {
    let alloc = rt.alloc();
    for (fault, text) in MESSAGES {
        displays(alloc, &fault, text)?;
    }
    for (fault, text) in COPIES {
        displays(alloc, &fault, text)?;
    }
    for (fault, text) in TYPES {
        let (oid, name) = (101, String::from_str(alloc, "node")?);
        displays(alloc, &RefusedType { oid, name, fault }, text)?;
    }
    Ok(())
}
