//! The texts of intervals, dates and timestamps, by `interval_out`, `date_out`, `timestamp_out` and
//! `timestamptz_out`.

use jiff::civil;
use postgres_types::{Date, Interval, Timestamp};
use std::test::Fail;
use test_support::{displays, unix};

/// Microseconds, days and months, and their text.
const INTERVALS: [((i64, i32, i32), &str); 8] = [
    ((0, 0, 0), "00:00:00"),
    (
        (14_706_789_000, -3, 14),
        "1 year 2 mons -3 days +04:05:06.789",
    ),
    ((0, 0, i32::MAX), "178956970 years 7 mons"),
    ((0, 0, i32::MIN), "-178956970 years -8 mons"),
    ((0, -1, 1), "1 mon -1 days"),
    ((1_500_000, 1, -1), "-1 mons +1 day 00:00:01.5"),
    ((-1, 0, 0), "-00:00:00.000001"),
    ((i64::MIN, 0, 0), "-2562047788:00:54.775808"),
];

/// Seconds and nanoseconds, and their text.
const TIMES: [((i64, u32), &str); 6] = [
    ((0, 0), "1970-01-01 00:00:00"),
    ((-1, 999_999_999), "1969-12-31 23:59:59.999999"),
    ((951_827_696, 500_000_000), "2000-02-29 12:34:56.5"),
    ((-62_167_219_200, 0), "0001-01-01 00:00:00 BC"),
    ((-62_135_596_800, 999), "0001-01-01 00:00:00"),
    ((253_402_300_800, 1_000), "10000-01-01 00:00:00.000001"),
];

#[test]
fn intervals_have_their_texts(rt: HostRuntime) -> Result<(), Fail> {
    for ((microseconds, days, months), text) in INTERVALS {
        let interval = Interval {
            microseconds,
            days,
            months,
        };
        displays(rt.alloc(), &interval, text)?;
    }
    Ok(())
}

#[test]
fn timestamps_in_seconds_have_their_texts(rt: HostRuntime) -> Result<(), Fail> {
    for ((secs, nanos), text) in TIMES {
        let time = unix(secs, nanos)?;
        displays(rt.alloc(), &time, text)?;
        displays(rt.alloc(), &Timestamp::Value(time), text)?;
    }
    Ok(())
}

#[test]
fn dates_have_their_texts(rt: HostRuntime) -> Result<(), Fail> {
    for (date, text) in [
        (Date::Value(civil::date(2000, 1, 31)), "2000-01-31"),
        (Date::Value(civil::date(0, 12, 31)), "0001-12-31 BC"),
        (Date::Value(civil::date(-9999, 1, 1)), "10000-01-01 BC"),
        (Date::PosInfinity, "infinity"),
        (Date::NegInfinity, "-infinity"),
    ] {
        displays(rt.alloc(), &date, text)?;
    }
    Ok(())
}

/// Microseconds from 1970, and the text of their timestamp.
const INSTANTS: [(i64, &str); 3] = [
    (0, "1970-01-01 00:00:00+00"),
    (-1, "1969-12-31 23:59:59.999999+00"),
    (951_827_696_120_000, "2000-02-29 12:34:56.12+00"),
];

#[test]
fn timestamps_of_jiff_have_their_texts(rt: HostRuntime) -> Result<(), Fail> {
    let alloc = rt.alloc();
    let last = civil::date(1999, 12, 31).at(23, 59, 59, 500_000_999);
    displays(alloc, &Timestamp::Value(last), "1999-12-31 23:59:59.5")?;
    let early = civil::date(-43, 3, 15).at(0, 0, 0, 0);
    displays(alloc, &Timestamp::Value(early), "0044-03-15 00:00:00 BC")?;
    for (micros, text) in INSTANTS {
        let timestamp = jiff::Timestamp::from_microsecond(micros)?;
        displays(alloc, &Timestamp::Value(timestamp), text)?;
    }
    Ok(())
}
