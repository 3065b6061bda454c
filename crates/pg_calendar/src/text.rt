//! The texts of dates and times of day, with DateStyle ISO.
ghost use Rattle.std.specs.Prelude.{◌≡◌, ◌<◌, ◌++◌, [], ◌∷◌};
ghost use Rattle.std.specs.Fmt.{WritesOnOk};
ghost use Rattle.pg_calendar.specs.Texts.{clock_text, date_text, day_text, era_text, fraction_text, timestamp_text};
ghost use Rattle.pg_calendar.specs.Texts.{year_of_era};

use crate::civil::Civil;
use crate::date_time::{Clock, DateTime};
use crate::digits::{len_without_zeros, six_digits};
use std::{fmt, str};

/// Returns the number of a year in its era: year 0 is 1 BC, so its number is 1.
pub fn year_of_era(year: i64) -> u64
    ensures { result ≡ year_of_era year }
{
    if year > 0 {
        year.unsigned_abs()
    } else {
        year.unsigned_abs() + 1
    }
}

/// Writes the date, and ` BC` after it for a year before year 1, like `2000-01-31` and
/// `0044-03-15 BC` (`date_out`).
pub fn write_date<W: fmt::Write>(date: Civil, f: &mut fmt::Formatter<W>) -> fmt::Result
    ensures { WritesOnOk W.write_str_gives f.old result (date_text date.year date.month date.day) f.new }
{
    write_day(date, f)?;
    write_era(date.year, f)
}

/// Writes the time of day, like `23:59:59.5` (`time_out`). `micros` must be below 1,000,000.
pub fn write_clock<W: fmt::Write>(clock: Clock, f: &mut fmt::Formatter<W>) -> fmt::Result
    requires { clock.micros < 1_000_000 }
    ensures { WritesOnOk W.write_str_gives f.old result
        (clock_text clock.hour clock.minute clock.second clock.micros) f.new }
{
    let Clock {
        hour,
        minute,
        second,
        micros,
    } = clock;
    write!(f, "{hour:02}:{minute:02}:{second:02}")?;
    write_fraction(micros, f)
}

/// Writes the date, the time of day, the zone and, for a year before year 1, ` BC`, like
/// `2000-01-31 23:59:59.5+00` (`timestamptz_out`). The microseconds must be below 1,000,000.
pub fn write_timestamp<W: fmt::Write>(
    datetime: DateTime,
    zone: &str,
    f: &mut fmt::Formatter<W>,
) -> fmt::Result
    requires { datetime.clock.micros < 1_000_000 }
    ensures { WritesOnOk W.write_str_gives f.old result
        (timestamp_text datetime.date.year datetime.date.month datetime.date.day
        (clock_text datetime.clock.hour datetime.clock.minute datetime.clock.second datetime.clock.micros)
        zone.now) f.new }
{
    write_day(datetime.date, f)?;
    f.write_str(" ")?;
    write_clock(datetime.clock, f)?;
    f.write_str(zone)?;
    write_era(datetime.date.year, f)
}

/// Writes the date without its era.
fn write_day<W: fmt::Write>(date: Civil, f: &mut fmt::Formatter<W>) -> fmt::Result
    ensures { WritesOnOk W.write_str_gives f.old result (day_text date.year date.month date.day) f.new }
{
    let Civil { year, month, day } = date;
    let year = year_of_era(year);
    write!(f, "{year:04}-{month:02}-{day:02}")
}

/// Writes ` BC` for a year before year 1, and nothing for another.
fn write_era<W: fmt::Write>(year: i64, f: &mut fmt::Formatter<W>) -> fmt::Result
    ensures { WritesOnOk W.write_str_gives f.old result (era_text year) f.new }
{
    f.write_str(if year > 0 { "" } else { " BC" })
}

/// Writes a decimal point and the millionths without trailing zeros; nothing if there are none.
fn write_fraction<W: fmt::Write>(millionths: u32, f: &mut fmt::Formatter<W>) -> fmt::Result
    requires { millionths < 1_000_000 }
    ensures { WritesOnOk W.write_str_gives f.old result (fraction_text millionths) f.new }
{
    if millionths == 0 {
        return Ok(());
    }
    let Some(digits) = six_digits(millionths) else {
        unreachable!();
    };
    let digits = &digits[..len_without_zeros(&digits)];
    f.write_str(".")?;
    f.write_str(str::from_utf8(digits).map_err(|_| fmt::Error)?)
}
