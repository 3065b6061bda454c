//! The texts of dates and timestamps that may be infinite.
ghost use Rattle.std.specs.Prelude.{Some};
ghost use Rattle.std.specs.Fmt.{WritesOnOk};
ghost use Rattle.pg_base.specs.DateTexts.{civil_date_text, civil_datetime_text, instant_text, special_text};
ghost use Rattle.pg_base.specs.DateTexts.{unix_time_text};
ghost use Rattle.pg_base.specs.Special.{date_view, timestamp_view};

use super::{Date, Timestamp};
use crate::calendar::{clock_of, datetime_of, day_of};
use crate::unix_time::UnixTime;
use jiff::civil;
use pg_calendar::{DateTime, write_date, write_timestamp};
use std::fmt;

/// Writes `2000-01-31`, `infinity` or `-infinity` (`date_out`).
impl fmt::Display for Date<civil::Date> {
    ghost output = { λ v. Some (special_text civil_date_text (date_view v)) };

    fn fmt<W: fmt::Write>(&self, f: &mut fmt::Formatter<W>) -> fmt::Result {
        match self {
            Date::PosInfinity => f.write_str("infinity"),
            Date::NegInfinity => f.write_str("-infinity"),
            Date::Value(date) => write_date(day_of(*date), f),
        }
    }
}

/// Writes `2000-01-31 23:59:59.5`, `infinity` or `-infinity` (`timestamp_out`). The time is
/// truncated to microseconds.
impl fmt::Display for Timestamp<civil::DateTime> {
    ghost output = { λ v. Some (special_text civil_datetime_text (timestamp_view v)) };

    fn fmt<W: fmt::Write>(&self, f: &mut fmt::Formatter<W>) -> fmt::Result {
        match self {
            Timestamp::PosInfinity => f.write_str("infinity"),
            Timestamp::NegInfinity => f.write_str("-infinity"),
            Timestamp::Value(datetime) => {
                let date = day_of(datetime.date());
                let clock = clock_of(datetime.time());
                write_timestamp(DateTime { date, clock }, "", f)
            }
        }
    }
}

/// Writes `2000-01-31 23:59:59.5+00`, `infinity` or `-infinity` (`timestamptz_out`, with TimeZone
/// UTC). The timestamp is truncated to microseconds toward 1970-01-01 00:00:00 UTC.
impl fmt::Display for Timestamp<jiff::Timestamp> {
    ghost output = { λ v. Some (special_text instant_text (timestamp_view v)) };

    fn fmt<W: fmt::Write>(&self, f: &mut fmt::Formatter<W>) -> fmt::Result {
        match self {
            Timestamp::PosInfinity => f.write_str("infinity"),
            Timestamp::NegInfinity => f.write_str("-infinity"),
            Timestamp::Value(timestamp) => write_instant(*timestamp, f),
        }
    }
}

/// Writes the timestamp and its zone.
fn write_instant<W: fmt::Write>(
    timestamp: jiff::Timestamp,
    f: &mut fmt::Formatter<W>,
) -> fmt::Result
    ensures { WritesOnOk W.write_str_gives f.old result (instant_text timestamp) f.new }
{
    write_timestamp(datetime_of(timestamp), "+00", f)
}

/// Writes `2000-01-31 23:59:59.5`, `infinity` or `-infinity` (`timestamp_out`). It is rounded down
/// to microseconds.
impl fmt::Display for Timestamp<UnixTime> {
    ghost output = { λ v. Some (special_text unix_time_text (timestamp_view v)) };

    fn fmt<W: fmt::Write>(&self, f: &mut fmt::Formatter<W>) -> fmt::Result {
        match self {
            Timestamp::PosInfinity => f.write_str("infinity"),
            Timestamp::NegInfinity => f.write_str("-infinity"),
            Timestamp::Value(timestamp) => write!(f, "{timestamp}"),
        }
    }
}
