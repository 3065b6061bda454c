//! What equality of these types means, each as a function whose contract states it.
ghost use Rattle.std.specs.Prelude.{◌≡◌, ◌↔◌, IsTrue};
ghost use Rattle.pg_record.specs.InventoryItems.{SameItem};

use crate::{InventoryItem, Mood, SessionId};

/// Whether two items are equal: with the same name, supplier and price.
pub fn same_item(a: &InventoryItem, b: &InventoryItem) -> bool
    ensures { IsTrue result ↔ SameItem a.now b.now }
{
    *a == *b
}

/// Whether two moods are equal: the same variant.
pub fn same_mood(a: &Mood, b: &Mood) -> bool
    ensures { IsTrue result ↔ (a.now ≡ b.now) }
{
    *a == *b
}

/// Whether two session ids are equal: with the same bytes.
pub fn same_session_id(a: &SessionId, b: &SessionId) -> bool
    ensures { IsTrue result ↔ (a.now.0.items ≡ b.now.0.items) }
{
    *a == *b
}
