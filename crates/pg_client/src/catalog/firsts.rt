//! Which row is the first one of its OID.
ghost use Rattle.std.specs.Prelude.{◌≡◌, Some, IfOk, IsFalse, IsTrue, slice_get};
ghost use Rattle.pg_client.specs.RowPlaces.{HasFirsts, IsFirst, IsLater};

use super::TypeRow;
use postgres_types::Oid;
use std::alloc::{AllocError, Global};
use std::collections::BTreeMap;

/// Returns the index of the first row of each OID.
pub(super) fn first_places(
    alloc: Global,
    rows: &[TypeRow<'_>],
) -> Result<BTreeMap<Oid, usize>, AllocError>
    ensures { IfOk result (HasFirsts rows.now) }
{
    let mut firsts = BTreeMap::new(alloc);
    for (place, row) in rows.iter().enumerate() {
        if !firsts.contains_key(&row.oid) {
            firsts.insert(row.oid, place)?;
        }
    }
    Ok(firsts)
}

/// Whether the row at this index is the first one of its OID.
pub(super) fn is_first(
    rows: &[TypeRow<'_>],
    firsts: &BTreeMap<Oid, usize>,
    place: usize,
    row: &TypeRow<'_>,
) -> bool
    requires firsts { HasFirsts rows.now firsts.now }
    requires row { slice_get rows.now place ≡ Some row.now }
    ensures first { IsTrue result → IsFirst rows.now place row.now.oid }
    ensures later { IsFalse result → IsLater rows.now place row.now.oid }
{
    match firsts.get(&row.oid) {
        Some(first) => *first == place,
        None => false,
    }
}
