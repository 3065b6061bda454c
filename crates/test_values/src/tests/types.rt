//! User-defined types: their text, equality and hashing.

use pg_base::types::laws::{hash_alike, same_type};
use postgres_types::Type;
use std::test::Fail;
use test_support::{accepts, displays, same, simple_type};

#[test]
fn a_type_displays_its_schema(rt: HostRuntime) -> Result<(), Fail> {
    let alloc = rt.alloc();
    let rows = [
        ("app", "app.mood"),
        ("public", "mood"),
        ("pg_catalog", "mood"),
    ];
    for (schema, text) in rows {
        displays(alloc, &simple_type(alloc, "mood", 99_000, schema)?, text)?;
    }
    Ok(())
}

#[test]
fn a_user_defined_type_equals_no_built_in_one(rt: HostRuntime) -> Result<(), Fail> {
    let alike = simple_type(rt.alloc(), "int4", 23, "pg_catalog")?;
    same(same_type(&alike, &Type::INT4), false)?;
    // A hash is that of the OID.
    same(hash_alike(&alike, &Type::INT4), true)?;
    accepts::<i32>(&[(alike, false)])
}
