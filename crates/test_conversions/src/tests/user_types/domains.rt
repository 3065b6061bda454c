//! Domains: `SessionId` over BYTEA, and `percentage` by `Newtype`.

use own_types::domain::Percentage;
use pg_record::SessionId;
use pg_record::types::session_id_type;
use postgres_types::newtype::Domain;
use postgres_types::{Fault, Kind, Type};
use std::alloc::Global;
use std::test::Fail;
use test_support::{accepts, refuses_type, spells, user_type};

/// A domain of that name and OID over that type.
pub fn domain(alloc: Global, name: &str, oid: u32, underlying: Type) -> Result<Type, Fault> {
    user_type(alloc, name, oid, Kind::Domain(underlying), "public")
}

/// Names and underlying types of domains, and whether session ids accept these.
const DOMAINS: [(&str, Type, bool); 3] = [
    ("SessionId", Type::BYTEA, true),
    ("SessionId", Type::TEXT, false),
    ("sessionid", Type::BYTEA, false),
];

#[test]
fn its_name_and_underlying_type_are_accepted(rt: HostRuntime) -> Result<(), Fail> {
    for (name, underlying, accepted) in DOMAINS {
        let ty = domain(rt.alloc(), name, 100_006, underlying)?;
        accepts::<SessionId>(&[(ty, accepted)])?;
    }
    let id = SessionId(Vec::new(rt.alloc()));
    refuses_type(rt.alloc(), &id, &Type::BYTEA, "SessionId")
}

#[test]
fn a_cell_is_that_of_the_underlying_type(rt: HostRuntime) -> Result<(), Fail> {
    let ty = session_id_type(rt.alloc(), 100_006)?;
    for cell in [b"".as_slice(), &[0xde, 0xad, 0, 0xff]] {
        let id = SessionId(Vec::from_slice(rt.alloc(), cell)?);
        spells(rt.alloc(), &ty, &[(id, cell)])?;
    }
    Ok(())
}

#[test]
fn percentages_are_a_domain(rt: HostRuntime) -> Result<(), Fail> {
    let rows = [
        (Domain(Percentage(0)), [0, 0].as_slice()),
        (Domain(Percentage(100)), [0, 100].as_slice()),
    ];
    let ty = domain(rt.alloc(), "percentage", 0x4008, Type::INT2)?;
    spells(rt.alloc(), &ty, &rows)
}
