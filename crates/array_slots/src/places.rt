//! The slots of an array on the stack.
ghost use Rattle.std.specs.Prelude.{◌≡◌, Bool, true, false, IsTrue, MatchResult};
ghost use Rattle.core.specs.Mem.Slots.{slots_items, slots_len, SamePlaces, IsFull};
ghost use Rattle.core.specs.declared.slots.Slots.{Slots as Places};

use core::slots::Slots;
use std::mem::{ManuallyDrop, align_of};

/// Lends the `N` slots of an array to `fill`, with the first element and the source of the others.
/// Returns the array if `fill` reports that it filled all slots; otherwise a value that is still in
/// a slot is leaked.
///
/// Rattle has no `MaybeUninit`: the slots are the bytes that `None` leaves uninitialized.
pub(crate) fn with_places<T, S, F: FnOnce(Slots<T>, T, S) -> (Slots<T>, bool, S), const N: usize>(
    first: T,
    source: S,
    fill: F,
) -> Result<([T; N], S), S>
    requires callable { (places : Places T) → slots_len places ≡ N → F.pre fill places first source }
    requires returns { (places : Places T) (out : Places T × Bool × S) → slots_len places ≡ N
        → F.post fill places first source out → SamePlaces places out.0 × (IsTrue out.1 → IsFull out.0) }
    ensures { (places : Places T) × (back : Places T) × (slots_len places ≡ N) × MatchResult result
        (λ p. F.post fill places first source (back, true, p.1) × (p.0 ≡ slots_items back))
        (λ s. F.post fill places first source (back, false, s)) }
{
    let mut room: Option<ManuallyDrop<[T; N]>> = None;
    let start = unsafe { (&raw mut room as *mut u8).add(align_of::<T>()) } as *mut T;
    let places = unsafe { Slots::from_raw_parts(start, N) };
    let (back, is_full, rest) = fill(places, first, source);
    let _parts = unsafe { back.into_raw_parts() };
    if is_full {
        Ok((unsafe { (start as *mut [T; N]).read() }, rest))
    } else {
        Err(rest)
    }
}
