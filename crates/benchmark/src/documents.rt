//! JSON documents.

use crate::values::{FromSeed, Seed, values};
use crate::work::{Made, Work, measure_values, stated};
use postgres_types::private::BytesMut;
use postgres_types::{Fault, Type};
use serde_json::{Value, json};
use std::alloc::Global;
use std::slice;

/// Runs the case with this name, if it is in this file: a document has as many objects as its name
/// states, or is of about that size.
pub fn run(name: &str, work: Work, frames: &mut BytesMut) -> Made {
    let count = match name {
        "jsonb-1kB" => 12,
        "jsonb-100kB" => 1_150,
        "jsonb-10MB" => 115_000,
        _ => stated(name, "jsonb-")?,
    };
    Some(documents(work, frames, count))
}

/// An object of five members, of 80 to 90 bytes as a text.
impl FromSeed for Value {
    fn from_seed(alloc: Global, seed: Seed) -> Result<Value, Fault> {
        let name = String::from_seed(alloc, seed)?;
        let (place, number) = (seed.place, seed.number);
        Ok(json!(in alloc; {
            "id": place,
            "name": name,
            "tags": ["a tag", "\u{e9}", null],
            "seen": true,
            "balance": number
        })?)
    }
}

/// Reads or writes one document, an array of `count` objects.
fn documents(work: Work, frames: &mut BytesMut, count: u32) -> Result<u64, Fault> {
    let document = Value::Array(values(work.alloc, count)?);
    measure_values::<_, Value>(work, frames, &Type::JSONB, slice::from_ref(&document))
}
