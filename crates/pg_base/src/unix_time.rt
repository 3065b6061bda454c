//! Timestamps in seconds and nanoseconds.
ghost use Rattle.std.specs.Prelude.{◌≡◌, ◌≤◌, ◌<◌, false, MatchOption, int_div, pos};
ghost use Rattle.pg_base.specs.Numbers.{fits_signed};
ghost use Rattle.std.specs.Int.{w64};

pub mod laws;
mod text;

use crate::epoch::POSTGRES_EPOCH_SECS;

/// A timestamp: the seconds from 1970-01-01 00:00:00 UTC, negative before it, and the nanoseconds
/// after that second.
///
/// Timestamps are ordered by time.
#[derive(Debug, Clone, Copy, PartialEq, Eq, PartialOrd, Ord)]
pub struct UnixTime {
    secs: i64,
    nanos: u32,
    ghost within_second: { nanos < 1_000_000_000 },
}

impl UnixTime {
    ghost use Rattle.pg_base.specs.Timestamps.{IsAfterBase, nanos_of, whole_micros};

    /// Creates the timestamp that is `nanos` nanoseconds after second `secs`. Returns `None` if
    /// `nanos` is 1,000,000,000 or more.
    pub fn new(secs: i64, nanos: u32) -> Option<UnixTime>
        ensures { MatchOption result (1_000_000_000 ≤ nanos) (λ t. (t.secs ≡ secs) × (t.nanos ≡ nanos)) }
    {
        if nanos >= 1_000_000_000 {
            return None;
        }
        Some(UnixTime { secs, nanos })
    }

    /// Returns the seconds from 1970-01-01 00:00:00 UTC, rounded down.
    pub fn secs(&self) -> i64
        ensures { result ≡ self.now.secs }
    {
        self.secs
    }

    /// Returns the nanoseconds after that second, fewer than 1,000,000,000.
    pub fn nanos(&self) -> u32
        ensures value { result ≡ self.now.nanos }
        ensures within_second { result < 1_000_000_000 }
    {
        self.nanos
    }

    /// Creates the timestamp that is `micros` microseconds after 2000-01-01 00:00:00 UTC.
    pub fn from_postgres_micros(micros: i64) -> UnixTime
        ensures { IsAfterBase nanos_of micros result }
    {
        UnixTime {
            secs: POSTGRES_EPOCH_SECS + micros.div_euclid(1_000_000),
            nanos: micros.rem_euclid(1_000_000) as u32 * 1_000,
        }
    }

    /// Returns the microseconds from 2000-01-01 00:00:00 UTC to the timestamp, truncated toward
    /// zero. Returns `None` if they do not fit in an `i64`.
    pub fn to_postgres_micros(&self) -> Option<i64>
        ensures { MatchOption result (fits_signed w64 (whole_micros (nanos_of self.now)) ≡ false)
            (λ micros. micros ≡ whole_micros (nanos_of self.now)) }
    {
        let secs = i128::from(self.secs) - i128::from(POSTGRES_EPOCH_SECS);
        let nanos = secs * 1_000_000_000 + i128::from(self.nanos);
        thousandth(nanos)
    }
}

/// Returns a thousandth, truncated toward zero; `None` if it does not fit in an `i64`. Nanoseconds
/// that fit in 64 bits, as in the years from 1708 to 2292, are divided in 64 bits, because a
/// division in 128 bits takes many times as long.
fn thousandth(nanos: i128) -> Option<i64>
    ensures { MatchOption result (fits_signed w64 (int_div nanos (pos 1000)) ≡ false)
        (λ n. n ≡ int_div nanos (pos 1000)) }
{
    match i64::try_from(nanos) {
        Ok(nanos) => Some(nanos / 1_000),
        Err(_) => i64::try_from(nanos / 1_000).ok(),
    }
}
