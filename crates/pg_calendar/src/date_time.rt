//! Times of day, and dates with a time of day.
ghost use Rattle.std.specs.Prelude.{◌≡◌, ◌<◌, ◌/◌, ◌%◌, ℤ, FitsSigned, MatchOption, pos, ◌+ℤ◌, ◌-ℤ◌, ◌*ℤ◌};
ghost use Rattle.std.specs.Int.{w64};
ghost use Rattle.pg_calendar.specs.Calendar.{IsClock, IsTimestamp, day_number, micros_of_day};

use crate::civil::Civil;

/// The number of seconds in a day.
const DAY: i64 = 86_400;

/// A time of day.
#[derive(Debug, Clone, Copy, PartialEq, Eq)]
pub struct Clock {
    pub hour: u32,
    pub minute: u32,
    pub second: u32,
    pub micros: u32,
}

impl Clock {
    /// Returns the time of day that is `seconds` seconds and `micros` microseconds after midnight.
    pub fn new(seconds: u32, micros: u32) -> Clock
        ensures { (result.hour ≡ seconds / 3_600) × (result.minute ≡ seconds / 60 % 60) × (result.second ≡ seconds % 60)
            × (result.micros ≡ micros) }
    {
        Clock {
            hour: seconds / 3_600,
            minute: seconds / 60 % 60,
            second: seconds % 60,
            micros,
        }
    }

    /// Returns the microseconds from midnight, or `None` if there is no such time, as for 24:00:00.
    fn to_micros(self) -> Option<i64>
        ensures { MatchOption result (¬ (IsClock self.hour self.minute self.second self.micros))
            (λ n. IsClock self.hour self.minute self.second self.micros
            × (n ≡ pos (micros_of_day self.hour self.minute self.second self.micros))) }
    {
        let Clock {
            hour,
            minute,
            second,
            micros,
        } = self;
        if hour > 23 || minute > 59 || second > 59 || micros > 999_999 {
            return None;
        }
        let seconds = (hour * 60 + minute) * 60 + second;
        Some(i64::from(seconds) * 1_000_000 + i64::from(micros))
    }
}

/// A date and a time of day.
#[derive(Debug, Clone, Copy, PartialEq, Eq)]
pub struct DateTime {
    pub date: Civil,
    pub clock: Clock,
}

impl DateTime {
    /// Returns the timestamp that is `seconds` seconds and `micros` microseconds after 1970-01-01
    /// 00:00:00. `micros` must be below 1,000,000.
    pub fn new(seconds: i64, micros: u32) -> DateTime
        requires { micros < 1_000_000 }
        ensures { IsTimestamp result.date.year result.date.month result.date.day result.clock.hour
            result.clock.minute result.clock.second result.clock.micros (seconds *ℤ pos 1_000_000 +ℤ pos micros) }
    {
        let second_of_day = seconds.rem_euclid(DAY) as u32;
        DateTime {
            date: Civil::from_day(seconds.div_euclid(DAY)),
            clock: Clock::new(second_of_day, micros),
        }
    }

    /// Returns the microseconds to this timestamp from midnight of day `day`, which is counted in
    /// days from 1970-01-01. Returns `None` if the date or the time does not exist, or if that
    /// number or the date's number of days from 1970-01-01 does not fit in an `i64`.
    pub fn micros_from(self, day: i64) -> Option<i64>
        ensures { MatchOption result
            ((micros : ℤ) → FitsSigned w64 micros
            → FitsSigned w64 (day_number self.date.year self.date.month self.date.day)
            → ¬ (IsTimestamp self.date.year self.date.month self.date.day self.clock.hour self.clock.minute
            self.clock.second self.clock.micros (micros +ℤ day *ℤ pos 86_400_000_000)))
            (λ micros. IsTimestamp self.date.year self.date.month self.date.day self.clock.hour self.clock.minute
            self.clock.second self.clock.micros (micros +ℤ day *ℤ pos 86_400_000_000)) }
    {
        micros_since(day, self.date.to_day()?, self.clock.to_micros()?)
    }
}

/// Returns the microseconds from midnight of day `start` to `micros` after midnight of day `day`;
/// `None` if they do not fit in an `i64`.
#[inline]
pub fn micros_since(start: i64, day: i64, micros: i64) -> Option<i64>
    ensures { MatchOption result (¬ (FitsSigned w64 ((day -ℤ start) *ℤ pos 86_400_000_000 +ℤ micros)))
        (λ n. n ≡ (day -ℤ start) *ℤ pos 86_400_000_000 +ℤ micros) }
{
    // Midnight of `day` may not fit in 64 bits although the timestamp does.
    let days = i128::from(day) - i128::from(start);
    i64::try_from(days * 86_400_000_000 + i128::from(micros)).ok()
}
