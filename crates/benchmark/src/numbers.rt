//! Booleans, integers, OIDs and FLOAT8.

use crate::values::{FromSeed, Seed};
use crate::work::{Made, Work, measure};
use pg_numbers::Float8;
use pg_numbers::types::float8_type;
use postgres_types::private::BytesMut;
use postgres_types::{Fault, PgLsn, Type};
use std::alloc::Global;

/// Runs the case with this name, if it is in this file.
pub fn run(name: &str, work: Work, frames: &mut BytesMut) -> Made {
    Some(match name {
        "bool" => measure::<bool>(work, frames, &Type::BOOL),
        "char" => measure::<i8>(work, frames, &Type::CHAR),
        "int2" => measure::<i16>(work, frames, &Type::INT2),
        "int4" => measure::<i32>(work, frames, &Type::INT4),
        "int8" => measure::<i64>(work, frames, &Type::INT8),
        "oid" => measure::<u32>(work, frames, &Type::OID),
        "pg_lsn" => measure::<PgLsn>(work, frames, &Type::PG_LSN),
        "int4?" => measure::<Option<i32>>(work, frames, &Type::INT4),
        "float8" => floats(work, frames),
        _ => return None,
    })
}

fn floats(work: Work, frames: &mut BytesMut) -> Result<u64, Fault> {
    let ty = float8_type(work.alloc)?;
    measure::<Float8>(work, frames, &ty)
}

impl FromSeed for bool {
    fn from_seed(_alloc: Global, seed: Seed) -> Result<bool, Fault> {
        Ok(seed.number > 0)
    }
}

impl FromSeed for i8 {
    fn from_seed(_alloc: Global, seed: Seed) -> Result<i8, Fault> {
        let [a, ..] = seed.bytes();
        Ok(i8::from_be_bytes([a]))
    }
}

impl FromSeed for i16 {
    fn from_seed(_alloc: Global, seed: Seed) -> Result<i16, Fault> {
        let [a, b, ..] = seed.bytes();
        Ok(i16::from_be_bytes([a, b]))
    }
}

impl FromSeed for i32 {
    fn from_seed(_alloc: Global, seed: Seed) -> Result<i32, Fault> {
        Ok(seed.number)
    }
}

impl FromSeed for i64 {
    fn from_seed(_alloc: Global, seed: Seed) -> Result<i64, Fault> {
        Ok(i64::from_be_bytes(seed.twice()))
    }
}

impl FromSeed for u32 {
    fn from_seed(_alloc: Global, seed: Seed) -> Result<u32, Fault> {
        Ok(u32::from_be_bytes(seed.bytes()))
    }
}

impl FromSeed for PgLsn {
    fn from_seed(_alloc: Global, seed: Seed) -> Result<PgLsn, Fault> {
        Ok(PgLsn::from(u64::from_be_bytes(seed.twice())))
    }
}

/// A finite number.
impl FromSeed for Float8 {
    fn from_seed(_alloc: Global, seed: Seed) -> Result<Float8, Fault> {
        let bits = u64::from_be_bytes(seed.twice());
        Ok(Float8::from_bits(bits & 0xbfff_ffff_ffff_ffff))
    }
}
