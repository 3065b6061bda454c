//! What equality of dates and timestamps that may be infinite means, each as a function whose
//! contract states it.
ghost use Rattle.std.specs.Prelude.{◌↔◌, IsTrue};
ghost use Rattle.pg_base.specs.Special.{SameSpecial, date_view, timestamp_view};

use super::{Date, Timestamp};

/// Whether two dates are equal: the same infinity, or equal values.
pub fn same_date<T: PartialEq>(a: &Date<T>, b: &Date<T>) -> bool
    ensures { IsTrue result ↔ SameSpecial (λ v w. IsTrue (T.eq v w)) (date_view a.now) (date_view b.now) }
{
    *a == *b
}

/// Whether two timestamps are equal: the same infinity, or equal values.
pub fn same_timestamp<T: PartialEq>(a: &Timestamp<T>, b: &Timestamp<T>) -> bool
    ensures { IsTrue result ↔ SameSpecial (λ v w. IsTrue (T.eq v w)) (timestamp_view a.now) (timestamp_view b.now) }
{
    *a == *b
}
