//! Copies of types, kinds and fields.

use postgres_types::{Field, Kind, Type};
use std::alloc::Global;
use std::test::Fail;
use test_support::{holds, simple_type};

/// Returns a field of a user-defined type.
fn field(alloc: Global) -> Result<Field, Fail> {
    let mood = simple_type(alloc, "mood", 100_005, "app")?;
    Ok(Field::new(String::from_str(alloc, "a")?, mood))
}

/// A kind of each variant.
fn kinds(alloc: Global) -> Result<Vec<Kind>, Fail> {
    let labels = vec![in alloc; String::from_str(alloc, "a")?]?;
    let fields = vec![in alloc; field(alloc)?]?;
    Ok(vec![in alloc;
        Kind::Simple,
        Kind::Enum(labels),
        Kind::Pseudo,
        Kind::Array(Type::INT4),
        Kind::Range(Type::INT4),
        Kind::Multirange(Type::INT4),
        Kind::Domain(Type::TEXT),
        Kind::Composite(fields),
    ]?)
}

#[test]
fn kinds_are_copied(rt: HostRuntime) -> Result<(), Fail> {
    for kind in kinds(rt.alloc())? {
        let copy = kind.try_clone(rt.alloc())?;
        holds(copy == kind, "another kind")?;
    }
    Ok(())
}

#[test]
fn fields_and_types_are_copied(rt: HostRuntime) -> Result<(), Fail> {
    let field = field(rt.alloc())?;
    holds(field.try_clone(rt.alloc())? == field, "another field")?;
    let ty = field.type_();
    holds(ty.try_clone()? == *ty, "another type")
}
