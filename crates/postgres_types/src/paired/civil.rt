//! Dates are read back as themselves, and times and timestamps of `jiff` truncated to microseconds.
ghost use Rattle.std.specs.Prelude.{◌≡◌, refl};
ghost use Rattle.std.specs.Int.{w32, w64};
ghost use Rattle.jiff.specs.Words.{civil_nanos, epoch_day};
ghost use Rattle.pg_base.specs.Civil.{instant_nanos};
ghost use Rattle.postgres_types.specs.TimestampBack.{KeptMicros, KeptMicrosOfDay};
ghost use Rattle.postgres_types.specs.Laws.TimestampBack.{date_finite, date_lawful, datetime_finite};
ghost use Rattle.postgres_types.specs.Laws.TimestampBack.{datetime_lawful, instant_finite, instant_lawful};
ghost use Rattle.postgres_types.specs.Laws.TimestampBack.{time_lawful};
ghost use Rattle.postgres_types.specs.ReadingBack.{BackKept};

use crate::paired::{Finite, Paired};
use jiff::Timestamp;
use jiff::civil::{Date, DateTime, Time};

/// A date is read back as itself.
impl<'a> Paired<'a> for Date {
    ghost back = { λ _. BackKept (λ v w. epoch_day v ≡ epoch_day w) };

    ghost types = { λ _. refl };

    ghost lawful = { λ _ _. date_lawful };
}

/// A value that is read from a number that is not an infinity is written as that number.
impl<'a> Finite<'a> for Date {
    ghost dates = { λ _ _ _. date_finite w32 };

    ghost timestamps = { λ _ _ _. date_finite w64 };
}

/// A time is read back truncated to microseconds, toward midnight.
impl<'a> Paired<'a> for Time {
    ghost back = { λ _. BackKept KeptMicrosOfDay };

    ghost types = { λ _. refl };

    ghost lawful = { λ _ _. time_lawful };
}

/// A civil datetime is read back truncated to microseconds, toward 2000-01-01 00:00:00.
impl<'a> Paired<'a> for DateTime {
    ghost back = { λ _. BackKept (KeptMicros civil_nanos) };

    ghost types = { λ _. refl };

    ghost lawful = { λ _ _. datetime_lawful };
}

/// A value that is read from a number that is not an infinity is written as that number.
impl<'a> Finite<'a> for DateTime {
    ghost dates = { λ _ _ _. datetime_finite w32 };

    ghost timestamps = { λ _ _ _. datetime_finite w64 };
}

/// An instant is read back truncated to microseconds, toward 2000-01-01 00:00:00 UTC.
impl<'a> Paired<'a> for Timestamp {
    ghost back = { λ _. BackKept (KeptMicros instant_nanos) };

    ghost types = { λ _. refl };

    ghost lawful = { λ _ _. instant_lawful };
}

/// A value that is read from a number that is not an infinity is written as that number.
impl<'a> Finite<'a> for Timestamp {
    ghost dates = { λ _ _ _. instant_finite w32 };

    ghost timestamps = { λ _ _ _. instant_finite w64 };
}
