//! Texts, bytes and bit strings.

use crate::values::{FromSeed, Seed};
use crate::work::{Made, Work, measure, measure_as, user_type};
use postgres_types::private::BytesMut;
use postgres_types::{BitVec, Fault, Kind, Type};
use std::alloc::Global;

/// Runs the case with this name, if it is in this file: what is borrowed lies in its cell.
pub fn run(name: &str, work: Work, frames: &mut BytesMut) -> Made {
    Some(match name {
        "text" => measure::<String>(work, frames, &Type::TEXT),
        "text-borrowed" => measure_as::<String, &str>(work, frames, &Type::TEXT),
        "ltree" => ltrees(work, frames),
        "bytea" => measure::<Vec<u8>>(work, frames, &Type::BYTEA),
        "bytea-borrowed" => measure_as::<Vec<u8>, &[u8]>(work, frames, &Type::BYTEA),
        "varbit" => measure::<BitVec>(work, frames, &Type::VARBIT),
        _ => return None,
    })
}

fn ltrees(work: Work, frames: &mut BytesMut) -> Result<u64, Fault> {
    let ty = user_type(work.alloc, "ltree", 100_001, Kind::Simple)?;
    measure::<String>(work, frames, &ty)
}

/// A text with the place.
impl FromSeed for String {
    fn from_seed(alloc: Global, seed: Seed) -> Result<String, Fault> {
        let place = seed.place;
        Ok(format!(in alloc; "text {place}")?)
    }
}

impl FromSeed for Vec<u8> {
    fn from_seed(alloc: Global, seed: Seed) -> Result<Vec<u8>, Fault> {
        Ok(Vec::from_slice(alloc, &seed.twice())?)
    }
}

impl FromSeed for BitVec {
    fn from_seed(alloc: Global, seed: Seed) -> Result<BitVec, Fault> {
        Ok(BitVec::from_bytes(alloc, &seed.twice())?)
    }
}
