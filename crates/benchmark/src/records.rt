//! A composite type of three fields.

use crate::values::{FromSeed, Seed};
use crate::work::{Made, Work, measure};
use pg_record::InventoryItem;
use pg_record::types::item_type;
use postgres_types::Fault;
use postgres_types::private::BytesMut;
use std::alloc::Global;

/// Runs the case with this name, if it is in this file.
pub fn run(name: &str, work: Work, frames: &mut BytesMut) -> Made {
    match name {
        "item" => Some(items(work, frames)),
        _ => None,
    }
}

/// An item, of which every eighth has no price.
impl FromSeed for InventoryItem {
    fn from_seed(alloc: Global, seed: Seed) -> Result<InventoryItem, Fault> {
        Ok(InventoryItem {
            name: String::from_seed(alloc, seed)?,
            supplier_id: seed.number,
            price: match seed.place % 8 {
                7 => None,
                _ => Some(i64::from(seed.number)),
            },
        })
    }
}

fn items(work: Work, frames: &mut BytesMut) -> Result<u64, Fault> {
    let ty = item_type(work.alloc, 100_003)?;
    measure::<InventoryItem>(work, frames, &ty)
}
