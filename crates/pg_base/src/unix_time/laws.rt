//! What equality and order of timestamps mean, each as a function whose contract states it.
ghost use Rattle.std.specs.Prelude.{◌≡◌, ◌↔◌, IsTrue};
ghost use Rattle.std.specs.Ordering.{int_cmp};
ghost use Rattle.pg_base.specs.Timestamps.{nanos_of};

use super::UnixTime;
use std::cmp::Ordering;

/// Whether two timestamps are equal: of the same second and nanosecond.
pub fn same_unix_time(a: &UnixTime, b: &UnixTime) -> bool
    ensures { IsTrue result ↔ (a.now ≡ b.now) }
{
    *a == *b
}

/// How two timestamps are ordered: as their nanoseconds from 1970-01-01 00:00:00 UTC.
#[tactic(auto, using(crate::proofs::TimestampsLaws::order_by_parts))]
pub fn unix_time_order(a: &UnixTime, b: &UnixTime) -> Ordering
    ensures { result ≡ int_cmp (nanos_of a.now) (nanos_of b.now) }
{
    a.cmp(b)
}
