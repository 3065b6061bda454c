//! The fields of dates, times of day and timestamps of `jiff`.
ghost use Rattle.std.specs.Prelude.{◌≡◌, ◌/◌, ◌<◌, int_div, pos};
ghost use Rattle.pg_base.specs.Civil.{instant_nanos};
ghost use Rattle.pg_calendar.specs.Calendar.{IsTimestamp};

use jiff::{Timestamp, civil};
use pg_calendar::{Civil, Clock, DateTime};

/// Returns the year, month and day of a date.
pub fn day_of(date: civil::Date) -> Civil
    ensures { (result.year ≡ date.year) × (result.month ≡ date.month) × (result.day ≡ date.day) }
{
    Civil {
        year: i64::from(date.year()),
        month: u32::from(date.month().unsigned_abs()),
        day: u32::from(date.day().unsigned_abs()),
    }
}

/// Returns the time of day, truncated to microseconds.
pub fn clock_of(time: civil::Time) -> Clock
    ensures value { (result.hour ≡ time.hour) × (result.minute ≡ time.minute) × (result.second ≡ time.second)
        × (result.micros ≡ time.subsec_nanosecond / 1_000) }
    ensures within_second { result.micros < 1_000_000 }
{
    Clock {
        hour: u32::from(time.hour().unsigned_abs()),
        minute: u32::from(time.minute().unsigned_abs()),
        second: u32::from(time.second().unsigned_abs()),
        micros: time.subsec_nanosecond().unsigned_abs() / 1_000,
    }
}

/// Returns the date and the time of day of a timestamp in UTC. It is truncated to microseconds
/// toward 1970-01-01 00:00:00 UTC.
pub fn datetime_of(timestamp: Timestamp) -> DateTime
    ensures { IsTimestamp result.date.year result.date.month result.date.day result.clock.hour result.clock.minute
        result.clock.second result.clock.micros (int_div (instant_nanos timestamp) (pos 1000)) }
{
    let micros = timestamp.as_microsecond();
    let seconds = micros.div_euclid(1_000_000);
    DateTime::new(seconds, micros.rem_euclid(1_000_000) as u32)
}
