//! What equality of these types means, each as a function whose contract states it.
ghost use Rattle.std.specs.Prelude.{◌≡◌, ◌↔◌, IsTrue};

use super::{Gap, Moment, Picky, Short};

/// Whether two values are equal: the same number.
pub fn same_short(a: &Short, b: &Short) -> bool
    ensures { IsTrue result ↔ (a.now ≡ b.now) }
{
    *a == *b
}

/// Whether two values are equal: both `Hole`, or the same number.
pub fn same_gap(a: &Gap, b: &Gap) -> bool
    ensures { IsTrue result ↔ (a.now ≡ b.now) }
{
    *a == *b
}

/// Whether two values are equal: the same number.
pub fn same_moment(a: &Moment, b: &Moment) -> bool
    ensures { IsTrue result ↔ (a.now ≡ b.now) }
{
    *a == *b
}

/// Whether two values are equal: the same number.
pub fn same_picky(a: &Picky, b: &Picky) -> bool
    ensures { IsTrue result ↔ (a.now ≡ b.now) }
{
    *a == *b
}
