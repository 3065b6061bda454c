//! The rows whose types are not made yet.
ghost use Rattle.std.specs.Prelude.{◌≡◌, List, IfOk};
ghost use Rattle.std.specs.List.{range_with_len};
ghost use Rattle.pg_client.specs.RowPlaces.{HasFirsts};
ghost use Rattle.pg_client.specs.TypeTables.{Table};
ghost use Rattle.pg_client.specs.WholeCatalogs.{IsStuck, places_left};
ghost use Rattle.pg_client.specs.declared.catalog.TypeRow.{TypeRow};

use super::TypeFault;
use super::order::Order;
use postgres_types::Oid;
use std::alloc::{AllocError, Global};
use std::collections::BTreeMap;

/// A row whose type is not made.
#[derive(Clone, Copy)]
pub(super) struct Left {
    /// Its index.
    pub(super) place: usize,
    /// Why it is not made.
    pub(super) fault: TypeFault,
}

impl Left {
    /// Returns why the row is refused: a row that waits, and is refused for a part that has a row,
    /// is recursive.
    pub(super) fn reason(&self, order: &Order, firsts: &BTreeMap<Oid, usize>) -> TypeFault
        ensures { (table : Table) (rows : List TypeRow) → HasFirsts rows firsts.now
            → IsStuck table rows self.now.place self.now.fault → IsStuck table rows self.now.place result }
    {
        if let TypeFault::Unknown(part) = self.fault {
            if order.waits(self.place) && firsts.contains_key(&part) {
                return TypeFault::Recursive;
            }
        }
        self.fault
    }
}

/// Returns the indices of this number of rows.
pub(super) fn all_places(alloc: Global, rows: usize) -> Result<Vec<usize>, AllocError>
    ensures { IfOk result (λ places. places.items ≡ range_with_len 0 rows) }
{
    let mut places = Vec::new(alloc);
    for place in 0..rows {
        places.push(place)?;
    }
    Ok(places)
}

/// Returns the indices of these rows.
pub(super) fn places_of(alloc: Global, left: &[Left]) -> Result<Vec<usize>, AllocError>
    ensures { IfOk result (λ places. places.items ≡ places_left left.now) }
{
    left.iter().map(|row| row.place).collect(alloc)
}
