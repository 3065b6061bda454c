//! The texts of dates, times of day and timestamps, of `jiff` and of this library, which may be
//! infinite.
ghost use Rattle.std.specs.Prelude.{◌≡◌, ◌*◌, ◌/◌, [], IfSome, IsTrue};
ghost use Rattle.postgres_types.specs.Special.{date_view, timestamp_view};
ghost use Rattle.pg_calendar.specs.Calendar.{day_number};
ghost use Rattle.pg_text.specs.Spaces.{Trimmed, trimmed};
ghost use Rattle.pg_text.specs.Scans.{IsServerDay, SaysDate, SaysDateTime, SaysInstant, SaysTime, SaysTimestamp};
ghost use Rattle.pg_text.specs.Specials.{ParsesSpecial, SaysSpecial, ShowsSpecial};
ghost use Rattle.pg_text.specs.Texts.{Shows};
ghost use Rattle.pg_base.specs.DateTexts.{civil_date_text, civil_datetime_text, civil_time_text};
ghost use Rattle.pg_base.specs.DateTexts.{instant_text, unix_time_text};

use crate::date_forms::{
    parse_clock, parse_date, parse_datetime, parse_instant, parse_micros, push_clock, push_date,
    push_datetime, push_era,
};
use crate::spaces::trimmed;
use crate::{FromText, ToText, no_value};
use jiff::civil;
use pg_base::calendar::{clock_of, datetime_of, day_of};
use pg_calendar::{Civil, Clock, DateTime};
use postgres_types::{Date, Fault, Timestamp, UnixTime};
use std::alloc::{AllocError, Global};

/// 2000-01-01, in days from 1970-01-01.
const POSTGRES_EPOCH_DAY: i64 = 10_957;

/// The zone with which a timestamp with time zone is written.
const UTC: &[u8] = b"+00";

/// 4714-11-24 BC, with which the server's calendar begins, in days from 1970-01-01.
const FIRST_DAY: i64 = -2_440_588;

/// That day in microseconds from 1970-01-01.
const FIRST_MICROS: i64 = -210_866_803_200_000_000;

/// That day in microseconds from 2000-01-01.
const FIRST_POSTGRES_MICROS: i64 = -211_813_488_000_000_000;

/// 294277-01-01, before which the server's timestamps are, in microseconds from 2000-01-01.
const END_MICROS: i64 = 9_223_371_331_200_000_000;

/// Whether the server's calendar has this day.
fn is_server_day(date: Civil) -> bool
    ensures { IsTrue result → IsServerDay (day_number date.year date.month date.day) }
{
    match date.to_day() {
        Some(day) => day >= FIRST_DAY,
        None => false,
    }
}

/// Returns the date as a date of `jiff`, or `None` if it has no such date or the server has none.
fn jiff_date(date: Civil) -> Option<civil::Date>
    ensures { IfSome result (λ d. (d.year ≡ date.year) × (d.month ≡ date.month) × (d.day ≡ date.day)
        × IsServerDay (day_number date.year date.month date.day)) }
{
    if !is_server_day(date) {
        return None;
    }
    let year = i16::try_from(date.year).ok()?;
    let month = i8::try_from(date.month).ok()?;
    let day = i8::try_from(date.day).ok()?;
    civil::Date::new(year, month, day).ok()
}

/// Returns the time of day as a time of `jiff`, or `None` if there is no such time.
fn jiff_time(clock: Clock) -> Option<civil::Time>
    ensures { IfSome result (λ t. (t.hour ≡ clock.hour) × (t.minute ≡ clock.minute) × (t.second ≡ clock.second)
        × (t.subsec_nanosecond ≡ clock.micros * 1_000)) }
{
    let hour = i8::try_from(clock.hour).ok()?;
    let minute = i8::try_from(clock.minute).ok()?;
    let second = i8::try_from(clock.second).ok()?;
    let nanos = i32::try_from(clock.micros.checked_mul(1_000)?).ok()?;
    civil::Time::new(hour, minute, second, nanos).ok()
}

/// Writes the date, like `2000-01-31` (`date_out`).
impl ToText for civil::Date {
    ghost shows = { Shows civil_date_text };

    fn to_text(&self, _alloc: Global, out: &mut Vec<u8>) -> Result<(), AllocError> {
        let date = day_of(*self);
        push_date(date, out)?;
        push_era(date, out)
    }
}

/// Parses a date of `jiff`; `None` if the text is not one.
fn parse_civil_date(text: &str) -> Option<civil::Date>
    ensures { IfSome result (SaysDate text.now) }
{
    jiff_date(parse_date(text)?)
}

/// Parses a date, from 4714-11-24 BC on, in which the month and the day may have one digit.
impl FromText for civil::Date {
    ghost says = { SaysDate };

    fn from_text(_alloc: Global, text: &str) -> Result<civil::Date, Fault> {
        parse_civil_date(text).ok_or_else(no_value)
    }
}

/// Writes the time, like `23:59:59.5` (`time_out`).
impl ToText for civil::Time {
    ghost shows = { Shows civil_time_text };

    fn to_text(&self, _alloc: Global, out: &mut Vec<u8>) -> Result<(), AllocError> {
        push_clock(clock_of(*self), out)
    }
}

/// Parses a time of day of `jiff`; `None` if the text is not one.
fn parse_civil_time(text: &str) -> Option<civil::Time>
    ensures { IfSome result (SaysTime text.now) }
{
    jiff_time(parse_clock(text)?)
}

/// Parses a time of day in which the numbers may have one digit, and which may have no seconds
/// (`time_in`); white space may stand around it.
impl FromText for civil::Time {
    ghost says = { Trimmed SaysTime };

    fn from_text(_alloc: Global, text: &str) -> Result<civil::Time, Fault> {
        parse_civil_time(trimmed(text)).ok_or_else(no_value)
    }
}

/// Writes the timestamp, like `2000-01-31 23:59:59.5` (`timestamp_out`).
impl ToText for civil::DateTime {
    ghost shows = { Shows civil_datetime_text };

    fn to_text(&self, _alloc: Global, out: &mut Vec<u8>) -> Result<(), AllocError> {
        let datetime = DateTime {
            date: day_of(self.date()),
            clock: clock_of(self.time()),
        };
        push_datetime(datetime, b"", out)
    }
}

/// Parses a date and a time of day of `jiff`; `None` if the text is not one.
fn parse_civil(text: &str) -> Option<civil::DateTime>
    ensures { IfSome result (SaysDateTime text.now) }
{
    let datetime = parse_datetime(text)?;
    let date = jiff_date(datetime.date)?;
    let time = jiff_time(datetime.clock)?;
    Some(date.to_datetime(time))
}

/// Parses a date, as above, and a time of day, which may be absent, after a space or `T`.
impl FromText for civil::DateTime {
    ghost says = { SaysDateTime };

    fn from_text(_alloc: Global, text: &str) -> Result<civil::DateTime, Fault> {
        parse_civil(text).ok_or_else(no_value)
    }
}

/// Writes the timestamp in UTC, like `2000-01-31 23:59:59.5+00` (`timestamptz_out`).
impl ToText for jiff::Timestamp {
    ghost shows = { Shows instant_text };

    fn to_text(&self, _alloc: Global, out: &mut Vec<u8>) -> Result<(), AllocError> {
        push_datetime(datetime_of(*self), UTC, out)
    }
}

/// Parses a timestamp of `jiff`; `None` if the text is not one.
fn parse_timestamp(text: &str) -> Option<jiff::Timestamp>
    ensures { IfSome result (SaysInstant text.now) }
{
    let micros = parse_instant(text)?;
    if micros < FIRST_MICROS {
        return None;
    }
    jiff::Timestamp::from_microsecond(micros).ok()
}

/// Parses a timestamp with an offset from UTC, such as `+00`, `-0330`, `+05:30`, `Z` or ` UTC`.
impl FromText for jiff::Timestamp {
    ghost says = { SaysInstant };

    fn from_text(_alloc: Global, text: &str) -> Result<jiff::Timestamp, Fault> {
        parse_timestamp(text).ok_or_else(no_value)
    }
}

/// Writes the timestamp, like `2000-01-31 23:59:59.5` (`timestamp_out`), for every year.
impl ToText for UnixTime {
    ghost shows = { Shows unix_time_text };

    fn to_text(&self, _alloc: Global, out: &mut Vec<u8>) -> Result<(), AllocError> {
        push_datetime(DateTime::new(self.secs(), self.nanos() / 1_000), b"", out)
    }
}

/// Parses a timestamp; `None` if the text is not one.
fn parse_unix_time(text: &str) -> Option<UnixTime>
    ensures { IfSome result (SaysTimestamp text.now) }
{
    let micros = parse_micros(text, POSTGRES_EPOCH_DAY)?;
    if micros < FIRST_POSTGRES_MICROS || micros >= END_MICROS {
        return None;
    }
    Some(UnixTime::from_postgres_micros(micros))
}

/// Parses a timestamp of the server's years as above, that of a `civil::DateTime`.
impl FromText for UnixTime {
    ghost says = { SaysTimestamp };

    fn from_text(_alloc: Global, text: &str) -> Result<UnixTime, Fault> {
        parse_unix_time(text).ok_or_else(no_value)
    }
}

/// Writes `infinity`, `-infinity` or the date.
impl<T: ToText> ToText for Date<T> {
    ghost shows = { λ v. ShowsSpecial T.shows (date_view v) };

    fn to_text(&self, alloc: Global, out: &mut Vec<u8>) -> Result<(), AllocError> {
        match self {
            Date::PosInfinity => out.extend_from_slice(b"infinity"),
            Date::NegInfinity => out.extend_from_slice(b"-infinity"),
            Date::Value(date) => date.to_text(alloc, out),
        }
    }
}

/// Parses `infinity`, `-infinity` or a date (`date_in`); white space may stand around them.
impl<T: FromText> FromText for Date<T> {
    ghost says = { λ text v. SaysSpecial T.says (trimmed text) (date_view v) };

    ghost parses = { λ text. ParsesSpecial T.parses (trimmed text) };

    fn from_text(alloc: Global, text: &str) -> Result<Date<T>, Fault> {
        let text = trimmed(text);
        match text {
            "infinity" => Ok(Date::PosInfinity),
            "-infinity" => Ok(Date::NegInfinity),
            _ => Ok(Date::Value(T::from_text(alloc, text)?)),
        }
    }
}

/// Writes `infinity`, `-infinity` or the timestamp.
impl<T: ToText> ToText for Timestamp<T> {
    ghost shows = { λ v. ShowsSpecial T.shows (timestamp_view v) };

    // It is called for each value.
    #[inline(always)]
    fn to_text(&self, alloc: Global, out: &mut Vec<u8>) -> Result<(), AllocError> {
        match self {
            Timestamp::PosInfinity => out.extend_from_slice(b"infinity"),
            Timestamp::NegInfinity => out.extend_from_slice(b"-infinity"),
            Timestamp::Value(timestamp) => timestamp.to_text(alloc, out),
        }
    }
}

/// Parses `infinity`, `-infinity` or a timestamp (`timestamp_in`); white space may stand around
/// them.
impl<T: FromText> FromText for Timestamp<T> {
    ghost says = { λ text v. SaysSpecial T.says (trimmed text) (timestamp_view v) };

    ghost parses = { λ text. ParsesSpecial T.parses (trimmed text) };

    // A call would return a `Result` with a fault through memory.
    #[inline(always)]
    fn from_text(alloc: Global, text: &str) -> Result<Timestamp<T>, Fault> {
        let text = trimmed(text);
        match text {
            "infinity" => Ok(Timestamp::PosInfinity),
            "-infinity" => Ok(Timestamp::NegInfinity),
            _ => Ok(Timestamp::Value(T::from_text(alloc, text)?)),
        }
    }
}
