//! Types and times for tables, and the types that a conversion accepts.

use crate::same;
use postgres_types::{Fault, FromSql, Kind, ToSql, Type, UnixTime};
use std::alloc::Global;
use std::test::Fail;

/// Makes a user-defined type of kind `Simple`.
pub fn simple_type(alloc: Global, name: &str, oid: u32, schema: &str) -> Result<Type, Fault> {
    user_type(alloc, name, oid, Kind::Simple, schema)
}

/// Makes a user-defined type.
pub fn user_type(
    alloc: Global,
    name: &str,
    oid: u32,
    kind: Kind,
    schema: &str,
) -> Result<Type, Fault> {
    let name = String::from_str(alloc, name)?;
    let schema = String::from_str(alloc, schema)?;
    Type::new(alloc, name, oid, kind, schema)
}

/// Tests which types are accepted: both directions accept a type, or neither does.
pub fn accepts<'a, T: FromSql<'a> + ToSql>(rows: &[(Type, bool)]) -> Result<(), Fail> {
    for (ty, accepted) in rows {
        same(<T as FromSql>::accepts(ty), *accepted)?;
        same(<T as ToSql>::accepts(ty), *accepted)?;
    }
    Ok(())
}

/// Makes the time of that second and nanosecond.
pub fn unix(secs: i64, nanos: u32) -> Result<UnixTime, Fail> {
    match UnixTime::new(secs, nanos) {
        Some(time) => Ok(time),
        None => Err(Fail::from("no such time")),
    }
}
