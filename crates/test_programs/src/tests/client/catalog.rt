//! The types that are made from the rows of a catalog. Those of each kind are made by the program
//! catalog_types.

use pg_client::catalog::{Catalog, QUERY, TypeFault, TypeRow};
use postgres_types::Oid;
use std::alloc::Global;
use std::test::Fail;
use test_support::{debugs, holds, same, simple_type};

/// The query as `scripts/server-test` tries it against a server: the labels of an enumerated type and
/// the fields of a composite type are in their order.
const TRIED: &str = "\
SELECT t.oid, t.typname AS name, n.nspname AS schema,
    CASE WHEN t.typtype = 'b' AND t.typelem <> 0
        AND t.typsubscript = 'pg_catalog.array_subscript_handler'::pg_catalog.regproc
        THEN 'a' ELSE t.typtype END AS kind,
    COALESCE(r.rngsubtype, t.typelem) AS element, t.typbasetype AS base,
    ARRAY(SELECT e.enumlabel FROM pg_catalog.pg_enum e
        WHERE e.enumtypid = t.oid ORDER BY e.enumsortorder) AS labels,
    ARRAY(SELECT a.attname FROM pg_catalog.pg_attribute a
        WHERE a.attrelid = t.typrelid AND a.attnum > 0 AND NOT a.attisdropped ORDER BY a.attnum) AS field_names,
    ARRAY(SELECT a.atttypid FROM pg_catalog.pg_attribute a
        WHERE a.attrelid = t.typrelid AND a.attnum > 0 AND NOT a.attisdropped ORDER BY a.attnum) AS field_types
FROM pg_catalog.pg_type t
JOIN pg_catalog.pg_namespace n ON n.oid = t.typnamespace
LEFT JOIN pg_catalog.pg_range r ON t.oid IN (r.rngtypid, r.rngmultitypid)";

#[test]
fn the_query_is_the_one_that_a_server_answered(_rt: HostRuntime) -> Result<(), Fail> {
    same(QUERY, TRIED)
}

/// Types of PostgreSQL itself, as `pg_type` has them: their OIDs, and the texts of `Debug`.
const BUILT_IN: [(Oid, &str); 8] = [
    (23, "Int4"),
    (
        701,
        "Other(Other { name: \"float8\", oid: 701, kind: Simple, schema: \"pg_catalog\" })",
    ),
    (
        1022,
        "Other(Other { name: \"_float8\", oid: 1022, kind: Array(Other(Other { name: \"float8\", \
            oid: 701, kind: Simple, schema: \"pg_catalog\" })), schema: \"pg_catalog\" })",
    ),
    (
        1700,
        "Other(Other { name: \"numeric\", oid: 1700, kind: Simple, schema: \"pg_catalog\" })",
    ),
    (
        2249,
        "Other(Other { name: \"record\", oid: 2249, kind: Pseudo, schema: \"pg_catalog\" })",
    ),
    (
        3906,
        "Other(Other { name: \"numrange\", oid: 3906, kind: Range(Other(Other { name: \"numeric\", \
            oid: 1700, kind: Simple, schema: \"pg_catalog\" })), schema: \"pg_catalog\" })",
    ),
    (
        3926,
        "Other(Other { name: \"int8range\", oid: 3926, kind: Range(Int8), \
            schema: \"pg_catalog\" })",
    ),
    (
        4532,
        "Other(Other { name: \"nummultirange\", oid: 4532, kind: Multirange(Other(Other { \
            name: \"numeric\", oid: 1700, kind: Simple, schema: \"pg_catalog\" })), \
            schema: \"pg_catalog\" })",
    ),
];

/// Tests the text of `Debug` of the type with this OID.
fn has(alloc: Global, catalog: &Catalog, oid: Oid, text: &str) -> Result<(), Fail> {
    let Some(found) = catalog.get(oid) else {
        return Err(Fail::from("no type"));
    };
    let found = found.try_clone()?;
    debugs(alloc, &found, text)
}

#[test]
fn types_of_postgres_need_no_query(rt: HostRuntime) -> Result<(), Fail> {
    let alloc = rt.alloc();
    let catalog = Catalog::built_in(alloc)?;
    holds(catalog.refused().is_empty(), "refused")?;
    for (oid, text) in BUILT_IN {
        has(alloc, &catalog, oid, text)?;
    }
    for oid in [0, 15, 71, 10_000, 4_294_967_295] {
        holds(catalog.get(oid).is_none(), "a type of no server")?;
    }
    Ok(())
}

/// Returns a row of this kind with this part: its element, its base type and its only field.
fn row(alloc: Global, oid: Oid, kind: u8, part: Oid) -> Result<TypeRow<'static>, Fail> {
    let mut row = TypeRow {
        oid,
        name: "own",
        schema: "public",
        kind: kind.cast_signed(),
        element: part,
        base: part,
        labels: Vec::new(alloc),
        field_names: Vec::new(alloc),
        field_types: Vec::new(alloc),
    };
    row.field_names.push("part")?;
    row.field_types.push(part)?;
    Ok(row)
}

/// The OIDs of rows, their kinds, and their parts: a composite type, an array, a domain and a range
/// that contain themselves; a domain over one of these, an array of another row, and parts that no
/// row makes.
const ROWS: [(Oid, u8, Oid); 9] = [
    (101, b'c', 102),
    (102, b'a', 101),
    (103, b'd', 103),
    (104, b'r', 104),
    (105, b'd', 102),
    (106, b'a', 107),
    (107, b'b', 0),
    (108, b'm', 999),
    (109, b'd', 108),
];

/// Those that are refused.
const REFUSED: &[(Oid, TypeFault)] = &[
    (101, TypeFault::Recursive),
    (102, TypeFault::Recursive),
    (103, TypeFault::Recursive),
    (104, TypeFault::Recursive),
    (105, TypeFault::Recursive),
    (108, TypeFault::Unknown(999)),
    (109, TypeFault::Unknown(108)),
];

#[test]
fn recursive_types_are_told_from_unknown_ones(rt: HostRuntime) -> Result<(), Fail> {
    let alloc = rt.alloc();
    let mut rows = Vec::new(alloc);
    for (oid, kind, part) in ROWS {
        rows.push(row(alloc, oid, kind, part)?)?;
    }
    let catalog = Catalog::new(alloc, rows.as_slice())?;
    for (found, expected) in catalog.refused().iter().zip(REFUSED) {
        same((found.oid, found.fault), *expected)?;
    }
    same(catalog.refused().len(), REFUSED.len())
}

#[test]
fn types_are_added(rt: HostRuntime) -> Result<(), Fail> {
    let alloc = rt.alloc();
    let mut catalog = Catalog::new(alloc, &[])?;
    let point = simple_type(alloc, "point", 600, "pg_catalog")?;
    same(catalog.insert(point), Ok(()))?;
    let points = row(alloc, 1017, b'a', 600)?;
    same(catalog.add(alloc, &points), Ok(()))
}

#[test]
fn the_first_unknown_part_is_named(rt: HostRuntime) -> Result<(), Fail> {
    let alloc = rt.alloc();
    let mut pair = row(alloc, 110, b'c', 998)?;
    pair.field_names.push("other")?;
    pair.field_types.push(997)?;
    let mut catalog = Catalog::new(alloc, &[])?;
    same(catalog.add(alloc, &pair), Err(TypeFault::Unknown(998)))
}
