//! Filling the slots of an array from a source.
ghost use Rattle.std.specs.Prelude.{◌≡◌, ◌≤◌, ◌-◌, ◌<◌, List, ◌∷◌, IsTrue, MatchBool};
ghost use Rattle.core.specs.Mem.Slots.{slots_items, slots_filled, slots_len, SamePlaces, IsFull};
ghost use Rattle.core.specs.Mem.Slots.Ownership.{Filled};
ghost use Rattle.array_slots.specs.Sources.{GivesAll, StopsBefore};

use super::ElementSource;
use core::slots::Slots;

/// Puts the first element, and then those of the source, into the slots. Returns the slots, whether
/// all of them are filled, and the source. If the source stops early, the elements are dropped.
pub(crate) fn fill<T: Drop, S: ElementSource<T>>(
    mut places: Slots<T>,
    first: T,
    mut source: S,
) -> (Slots<T>, bool, S)
    requires some { 0 < slots_len places }
    requires ready { S.ready source }
    ensures same { SamePlaces places result.0 }
    ensures full { IsTrue result.1 → IsFull result.0 }
    ensures values { MatchBool result.1
        ((xs : List T) × (slots_items result.0 ≡ first ∷ xs) × GivesAll S.gives source xs result.2)
        (StopsBefore S.gives S.stops source (slots_len places - 1) result.2) }
{
    places.put(0, first);
    let mut i = 1;
    while i < places.len() {
        match source.next() {
            Some(element) => places.put(i, element),
            None => {
                drop_first(&mut places, i);
                return (places, false, source);
            }
        }
        i += 1;
    }
    (places, true, source)
}

/// Drops the first `count` values.
fn drop_first<T: Drop>(places: &mut Slots<T>, count: usize)
    requires { (count ≤ slots_len places.old) × Filled (slots_filled places.old) 0 count }
    ensures { SamePlaces places.old places.new }
{
    let mut i = 0;
    while i < count {
        drop(places.take(i));
        i += 1;
    }
}
