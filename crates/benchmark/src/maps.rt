//! Maps of texts, as hstore.

use crate::values::{FromSeed, Seed};
use crate::work::{Made, Work, measure_values, stated, user_type};
use postgres_types::private::BytesMut;
use postgres_types::{Fault, Kind};
use std::alloc::Global;
use std::collections::HashMap;
use std::slice;

type Map = HashMap<String, Option<String>>;

/// Runs the case with this name, if it is in this file: a map has as many entries as its name
/// states.
pub fn run(name: &str, work: Work, frames: &mut BytesMut) -> Made {
    let entries = stated(name, "hstore-")?;
    Some(maps(work, frames, entries))
}

/// Returns a map of `entries` entries, of which every eighth value is NULL.
fn map(alloc: Global, entries: u32) -> Result<Map, Fault> {
    let mut map = Map::new(alloc);
    let mut seed = Seed::first();
    for _ in 0..entries {
        let key = format!(in alloc; "key {}", seed.number)?;
        map.insert(key, Option::from_seed(alloc, seed)?)?;
        seed = seed.next();
    }
    Ok(map)
}

/// Reads or writes one map.
fn maps(work: Work, frames: &mut BytesMut, entries: u32) -> Result<u64, Fault> {
    let ty = user_type(work.alloc, "hstore", 100_002, Kind::Simple)?;
    let map = map(work.alloc, entries)?;
    measure_values::<_, Map>(work, frames, &ty, slice::from_ref(&map))
}
