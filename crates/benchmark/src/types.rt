//! Copying, comparing and finding Postgres types.

use crate::sum::mix;
use crate::work::{Made, Work, user_type};
use postgres_types::{Fault, Kind, Type};

/// Runs the case with this name, if it is in this file.
pub fn run(name: &str, work: Work) -> Made {
    Some(match name {
        "type-clone" => copies(work),
        "type-clone-user" => user_copies(work),
        "type-eq" => Ok(comparisons(work)),
        "type-from_oid" => Ok(found(work)),
        _ => return None,
    })
}

/// Copies a built-in type in each turn.
fn copies(work: Work) -> Result<u64, Fault> {
    let mut ty = Type::INT4_ARRAY;
    for _ in 0..work.turns {
        ty = ty.try_clone()?;
    }
    Ok(u64::from(ty.oid()))
}

/// Copies a user-defined type in each turn.
fn user_copies(work: Work) -> Result<u64, Fault> {
    let mut ty = user_type(work.alloc, "hstore", 100_002, Kind::Simple)?;
    for _ in 0..work.turns {
        ty = ty.try_clone()?;
    }
    Ok(u64::from(ty.oid()))
}

/// Compares a type with those of eight numbers.
fn comparisons(work: Work) -> u64 {
    let types = [
        Type::INT4,
        Type::INT8,
        Type::BOOL,
        Type::OID,
        Type::TEXT,
        Type::INT2,
        Type::UUID,
        Type::JSONB,
    ];
    let mut sum = 0;
    for turn in 0..work.turns {
        for ty in &types {
            sum = mix(sum, u64::from(*ty == Type::TEXT) ^ u64::from(turn));
        }
    }
    sum
}

/// Finds the types of the OIDs from 0 to 2047, one after another.
fn found(work: Work) -> u64 {
    let mut sum = 0;
    for turn in 0..work.turns {
        let oid = turn & 2_047;
        sum = mix(sum, u64::from(Type::from_oid(oid).is_some()));
    }
    sum
}
