//! The proleptic Gregorian calendar, in days from 1970-01-01.
ghost use Rattle.std.specs.Prelude.{◌≡◌, ◌+◌, ◌<◌, ◌&&◌, if◌then◌else◌, nat_lt, FitsSigned, MatchOption};
ghost use Rattle.std.specs.Prelude.{pos, ◌+ℤ◌, ◌-ℤ◌, ◌*ℤ◌};
ghost use Rattle.std.specs.Int.{w64};
ghost use Rattle.jiff_core.specs.Calendar.{days_in_month, is_leap_year};
ghost use Rattle.jiff_core.specs.March.{march_days};
ghost use Rattle.pg_calendar.specs.Calendar.{IsDay, day_number};

/// The number of days in 400 years, after which the calendar repeats.
const CYCLE: i64 = 146_097;

/// The number of days from 0000-03-01 to 1970-01-01. Years are counted from March here, so that the
/// leap day is the last day of its year.
const EPOCH_FROM_MARCH: u32 = 719_468;

/// A date of the proleptic Gregorian calendar. Year 0 is the year before year 1; PostgreSQL writes
/// it as 1 BC.
#[derive(Debug, Clone, Copy, PartialEq, Eq)]
pub struct Civil {
    pub year: i64,
    /// From 1 to 12.
    pub month: u32,
    /// From 1 to 31.
    pub day: u32,
}

impl Civil {
    /// Returns the date that is `day` days after 1970-01-01, or before it if `day` is negative.
    pub fn from_day(day: i64) -> Civil
        ensures civil { IsDay result.year result.month result.day }
        ensures value { day_number result.year result.month result.day ≡ day }
    {
        let (year, day_of_year) = year_from_march(day.rem_euclid(CYCLE) as u32 + EPOCH_FROM_MARCH);
        let year = day.div_euclid(CYCLE) * 400 + i64::from(year);
        let scaled = 5 * day_of_year + 461;
        let (month, day) = (scaled / 153, scaled % 153 / 5 + 1);
        if month > 12 {
            let (year, month) = (year + 1, month - 12);
            Civil { year, month, day }
        } else {
            Civil { year, month, day }
        }
    }

    /// Returns the number of days from 1970-01-01 to this date, which is negative before 1970.
    /// Returns `None` if the month or the day does not exist, or if the number does not fit in an
    /// `i64`.
    pub fn to_day(self) -> Option<i64>
        ensures { MatchOption result
            (IsDay self.year self.month self.day → ¬ (FitsSigned w64 (day_number self.year self.month self.day)))
            (λ n. IsDay self.year self.month self.day × (n ≡ day_number self.year self.month self.day)) }
    {
        let Civil { year, month, day } = self;
        if day == 0 || day > days_in_month(year, month) {
            return None;
        }
        // 400 is added, since January and February of the first year count as the year before.
        let year_of_cycle = year.rem_euclid(400) as u32 + 400;
        let (year_of_cycle, month) = if month > 2 {
            (year_of_cycle, month)
        } else {
            (year_of_cycle - 1, month + 12)
        };
        let leap_days = year_of_cycle / 4 - year_of_cycle / 100 + year_of_cycle / 400;
        let days = year_of_cycle * 365 + leap_days + (153 * month - 457) / 5 + day;
        day_of_cycle(year.div_euclid(400), days)
    }
}

/// Returns the number of days from 1970-01-01 to a day of the 400-year cycle `cycle`; `None` if it
/// does not fit in an `i64`. Day 1 is 1 March, 400 years before the first year of the cycle.
fn day_of_cycle(cycle: i64, day: u32) -> Option<i64>
    ensures { MatchOption result (¬ (FitsSigned w64 (cycle *ℤ pos 146_097 +ℤ pos day -ℤ pos 865_566)))
        (λ n. n ≡ cycle *ℤ pos 146_097 +ℤ pos day -ℤ pos 865_566) }
{
    let days = i128::from(cycle) * 146_097 + i128::from(day);
    i64::try_from(days - 865_566).ok()
}

/// Returns the year, and the day of that year, both from 0, for a number of days from 0000-03-01.
fn year_from_march(day: u32) -> (u32, u32)
    ensures value { march_days result.0 + result.1 ≡ day }
    ensures within { day < march_days (result.0 + 1) }
    ensures bound { result.1 < 366 }
{
    // After Neri and Schneider, "Euclidean affine functions and their application to calendar
    // algorithms".
    let scaled = 4 * u64::from(day) + 3;
    let century = scaled / 146_097;
    let scaled = scaled % 146_097 / 4 * 4 + 3;
    let year = 100 * century + scaled / 1_461;
    (year as u32, (scaled % 1_461 / 4) as u32)
}

/// Returns the number of days in the month, or 0 if there is no such month.
fn days_in_month(year: i64, month: u32) -> u32
    ensures { result ≡ if nat_lt 0 month && nat_lt month 13 then days_in_month year month else 0 }
{
    match month {
        1 | 3 | 5 | 7 | 8 | 10 | 12 => 31,
        4 | 6 | 9 | 11 => 30,
        2 if is_leap_year(year) => 29,
        2 => 28,
        _ => 0,
    }
}

/// Whether February has 29 days.
fn is_leap_year(year: i64) -> bool
    ensures { result ≡ is_leap_year year }
{
    year % 4 == 0 && (year % 100 != 0 || year % 400 == 0)
}
