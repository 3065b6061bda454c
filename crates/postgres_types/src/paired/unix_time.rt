//! Timestamps are read back truncated to microseconds.
ghost use Rattle.std.specs.Prelude.{refl};
ghost use Rattle.std.specs.Int.{w32, w64};
ghost use Rattle.pg_base.specs.Timestamps.{nanos_of};
ghost use Rattle.postgres_types.specs.TimestampBack.{KeptMicros};
ghost use Rattle.postgres_types.specs.Laws.TimestampBack.{timestamp_finite, timestamp_lawful};
ghost use Rattle.postgres_types.specs.ReadingBack.{BackKept};

use crate::paired::{Finite, Paired};
use pg_base::unix_time::UnixTime;

/// A timestamp is read back truncated to microseconds, toward 2000-01-01 00:00:00 UTC.
impl<'a> Paired<'a> for UnixTime {
    ghost back = { λ _. BackKept (KeptMicros nanos_of) };

    ghost types = { λ _. refl };

    ghost lawful = { λ _ _. timestamp_lawful nanos_of };
}

/// A value that is read from a number that is not an infinity is written as that number.
impl<'a> Finite<'a> for UnixTime {
    ghost dates = { λ _ _ _. timestamp_finite nanos_of w32 };

    ghost timestamps = { λ _ _ _. timestamp_finite nanos_of w64 };
}
