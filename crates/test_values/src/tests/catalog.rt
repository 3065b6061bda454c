//! The built-in types by their OIDs, as in the server's catalog.

use postgres_types::{KindRef, Oid, Type};
use std::alloc::Global;
use std::borrow::Cow;
use std::test::Fail;
use test_support::{displays, holds, same};

/// An OID, its type, the name of the type and, for an array, the type of its elements.
type Row = (Oid, Type, &'static str, Option<Type>);

const CATALOG: [Row; 53] = [
    (16, Type::BOOL, "bool", None),
    (17, Type::BYTEA, "bytea", None),
    (18, Type::CHAR, "char", None),
    (19, Type::NAME, "name", None),
    (20, Type::INT8, "int8", None),
    (21, Type::INT2, "int2", None),
    (22, Type::INT2_VECTOR, "int2vector", Some(Type::INT2)),
    (23, Type::INT4, "int4", None),
    (25, Type::TEXT, "text", None),
    (26, Type::OID, "oid", None),
    (30, Type::OID_VECTOR, "oidvector", Some(Type::OID)),
    (114, Type::JSON, "json", None),
    (199, Type::JSON_ARRAY, "_json", Some(Type::JSON)),
    (650, Type::CIDR, "cidr", None),
    (651, Type::CIDR_ARRAY, "_cidr", Some(Type::CIDR)),
    (705, Type::UNKNOWN, "unknown", None),
    (829, Type::MACADDR, "macaddr", None),
    (869, Type::INET, "inet", None),
    (1000, Type::BOOL_ARRAY, "_bool", Some(Type::BOOL)),
    (1001, Type::BYTEA_ARRAY, "_bytea", Some(Type::BYTEA)),
    (1002, Type::CHAR_ARRAY, "_char", Some(Type::CHAR)),
    (1003, Type::NAME_ARRAY, "_name", Some(Type::NAME)),
    (1005, Type::INT2_ARRAY, "_int2", Some(Type::INT2)),
    (1007, Type::INT4_ARRAY, "_int4", Some(Type::INT4)),
    (1009, Type::TEXT_ARRAY, "_text", Some(Type::TEXT)),
    (1014, Type::BPCHAR_ARRAY, "_bpchar", Some(Type::BPCHAR)),
    (1015, Type::VARCHAR_ARRAY, "_varchar", Some(Type::VARCHAR)),
    (1016, Type::INT8_ARRAY, "_int8", Some(Type::INT8)),
    (1028, Type::OID_ARRAY, "_oid", Some(Type::OID)),
    (1040, Type::MACADDR_ARRAY, "_macaddr", Some(Type::MACADDR)),
    (1041, Type::INET_ARRAY, "_inet", Some(Type::INET)),
    (1042, Type::BPCHAR, "bpchar", None),
    (1043, Type::VARCHAR, "varchar", None),
    (1082, Type::DATE, "date", None),
    (1083, Type::TIME, "time", None),
    (1114, Type::TIMESTAMP, "timestamp", None),
    (
        1115,
        Type::TIMESTAMP_ARRAY,
        "_timestamp",
        Some(Type::TIMESTAMP),
    ),
    (1182, Type::DATE_ARRAY, "_date", Some(Type::DATE)),
    (1183, Type::TIME_ARRAY, "_time", Some(Type::TIME)),
    (1184, Type::TIMESTAMPTZ, "timestamptz", None),
    (
        1185,
        Type::TIMESTAMPTZ_ARRAY,
        "_timestamptz",
        Some(Type::TIMESTAMPTZ),
    ),
    (1186, Type::INTERVAL, "interval", None),
    (
        1187,
        Type::INTERVAL_ARRAY,
        "_interval",
        Some(Type::INTERVAL),
    ),
    (1560, Type::BIT, "bit", None),
    (1561, Type::BIT_ARRAY, "_bit", Some(Type::BIT)),
    (1562, Type::VARBIT, "varbit", None),
    (1563, Type::VARBIT_ARRAY, "_varbit", Some(Type::VARBIT)),
    (2950, Type::UUID, "uuid", None),
    (2951, Type::UUID_ARRAY, "_uuid", Some(Type::UUID)),
    (3220, Type::PG_LSN, "pg_lsn", None),
    (3221, Type::PG_LSN_ARRAY, "_pg_lsn", Some(Type::PG_LSN)),
    (3802, Type::JSONB, "jsonb", None),
    (3807, Type::JSONB_ARRAY, "_jsonb", Some(Type::JSONB)),
];

/// Tests that the type of the OID is this one, with this name and, for an array, these elements.
fn is_in_catalog(alloc: Global, (oid, ty, name, element): &Row) -> Result<(), Fail> {
    let found = match Type::from_oid(*oid) {
        Some(found) => found == *ty,
        None => false,
    };
    holds(found, "the OID names another type")?;
    same((ty.oid(), ty.schema()), (*oid, "pg_catalog"))?;
    same(ty.name(), *name)?;
    displays(alloc, ty, *name)?;
    let kind = match element {
        Some(element) => KindRef::Array(Cow::Borrowed(element)),
        None => KindRef::Simple,
    };
    holds(ty.kind() == kind, "another kind")
}

#[test]
fn built_in_types_are_as_in_the_catalog(rt: HostRuntime) -> Result<(), Fail> {
    for row in &CATALOG {
        is_in_catalog(rt.alloc(), row)?;
    }
    holds(Type::from_oid(0).is_none(), "0 names a type")
}
