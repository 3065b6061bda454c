//! Dates, times of day and timestamps of `jiff`.

use jiff::Timestamp;
use jiff::civil::{Date, DateTime, Time};
use postgres_types::Type;
use std::test::Fail;
use test_support::code::{DECODE, SIZE, WAS_NULL};
use test_support::{has_cells, writes};

/// Year, month and day.
type Day = (i16, i8, i8);

/// Hour, minute, second and nanosecond.
type Clock = (i8, i8, i8, i32);

const MIDNIGHT: Clock = (0, 0, 0, 0);

/// The last microsecond of a day.
const LAST_TIME: [u8; 8] = [0, 0, 0, 0x14, 0x1d, 0xd7, 0x5f, 0xff];

const LEAST: [u8; 8] = [0x80, 0, 0, 0, 0, 0, 0, 0];

const GREATEST: [u8; 8] = [0x7f, 0xff, 0xff, 0xff, 0xff, 0xff, 0xff, 0xff];

fn datetime(date: Day, time: Clock) -> Result<DateTime, Fail> {
    let (year, month, day) = date;
    let (hour, minute, second, nanos) = time;
    let date = Date::new(year, month, day)?;
    Ok(date.to_datetime(Time::new(hour, minute, second, nanos)?))
}

/// Days from 2000-01-01.
const DATES: [(Day, [u8; 4]); 6] = [
    ((2000, 1, 1), [0; 4]),
    ((2000, 1, 8), [0, 0, 0, 7]),
    // Upstream's test `date_in_range_decodes`: 1000 days.
    ((2002, 9, 27), [0, 0, 0x03, 0xe8]),
    ((1999, 12, 31), [0xff; 4]),
    ((-9999, 1, 1), [0xff, 0xbd, 0x20, 0xb0]),
    ((9999, 12, 31), [0x00, 0x2c, 0x95, 0xd3]),
];

const REFUSED_DATES: [(Option<&[u8]>, u32); 7] = [
    (Some(b"\xff\xbd\x20\xaf"), DECODE),
    (Some(b"\x00\x2c\x95\xd4"), DECODE),
    // Upstream's test `date_out_of_range_errors`: the greatest count of days.
    (Some(b"\x7f\xff\xff\xff"), DECODE),
    (Some(b"\x80\x00\x00\x00"), DECODE),
    (Some(b"\x00\x00\x03"), SIZE),
    (Some(b"\x00\x00\x03\xe8\x00"), SIZE),
    (None, WAS_NULL),
];

#[test]
fn dates_are_days_from_2000(rt: HostRuntime) -> Result<(), Fail> {
    let alloc = rt.alloc();
    for ((year, month, day), cell) in DATES {
        let row = [(Date::new(year, month, day)?, cell.as_slice())];
        has_cells(alloc, &Type::DATE, &row, &REFUSED_DATES)?;
    }
    Ok(())
}

/// Microseconds from midnight.
const TIMES: [(Clock, [u8; 8]); 3] = [
    (MIDNIGHT, [0; 8]),
    ((0, 0, 0, 1_000), [0, 0, 0, 0, 0, 0, 0, 1]),
    ((23, 59, 59, 999_999_000), LAST_TIME),
];

const REFUSED_TIMES: [(Option<&[u8]>, u32); 6] = [
    (Some(b"\x00\x00\x00\x14\x1d\xd7\x60\x00"), DECODE),
    (Some(&[0xff; 8]), DECODE),
    (Some(&GREATEST), DECODE),
    (Some(b"\x00\x00\x14\x1d\xd7\x5f\xff"), SIZE),
    (Some(&[0; 9]), SIZE),
    (None, WAS_NULL),
];

#[test]
fn times_are_microseconds_from_midnight(rt: HostRuntime) -> Result<(), Fail> {
    let alloc = rt.alloc();
    for ((hour, minute, second, nanos), cell) in TIMES {
        let row = [(Time::new(hour, minute, second, nanos)?, cell.as_slice())];
        has_cells(alloc, &Type::TIME, &row, &REFUSED_TIMES)?;
    }
    let finest = Time::new(23, 59, 59, 999_999_999)?;
    writes(alloc, &finest, &Type::TIME, &LAST_TIME)
}

/// Microseconds from 2000-01-01 00:00:00.
const DATETIMES: [(Day, Clock, i64); 4] = [
    // Upstream's test `timestamp_in_range_decodes`: 0 microseconds.
    ((2000, 1, 1), MIDNIGHT, 0),
    ((2000, 1, 1), (0, 0, 0, 1_000), 1),
    ((-9999, 1, 1), MIDNIGHT, -378_651_801_600_000_000),
    (
        (9999, 12, 31),
        (23, 59, 59, 999_999_000),
        252_455_615_999_999_999,
    ),
];

const REFUSED_DATETIMES: [(Option<&[u8]>, u32); 7] = [
    // Upstream's test `timestamp_out_of_range_errors`: 9,000,000,000,000,000,000 microseconds.
    (Some(b"\x7c\xe6\x6c\x50\xe2\x84\x00\x00"), DECODE),
    // The microsecond before the first one and that after the last one.
    (Some(b"\xfa\xbe\xc2\x31\x50\x11\xff\xff"), DECODE),
    (Some(b"\x03\x80\xe7\x0b\x91\x3b\x80\x00"), DECODE),
    (Some(&GREATEST), DECODE),
    (Some(&LEAST), DECODE),
    (Some(&[0; 7]), SIZE),
    (None, WAS_NULL),
];

#[test]
fn datetimes_are_microseconds_from_2000(rt: HostRuntime) -> Result<(), Fail> {
    let alloc = rt.alloc();
    for (date, time, micros) in DATETIMES {
        let cell = micros.to_be_bytes();
        let row = [(datetime(date, time)?, cell.as_slice())];
        has_cells(alloc, &Type::TIMESTAMP, &row, &REFUSED_DATETIMES)?;
    }
    let finer = datetime((1999, 12, 31), (23, 59, 59, 999_998_500))?;
    writes(alloc, &finer, &Type::TIMESTAMP, &[0xff; 8])
}

/// The microseconds of the first and of the last timestamp.
const FIRST_INSTANT: i64 = -378_651_708_001_000_000;

const LAST_INSTANT: i64 = 252_455_522_400_999_999;

const REFUSED_INSTANTS: [(Option<&[u8]>, u32); 6] = [
    // The microsecond before the first one and that after the last one.
    (Some(b"\xfa\xbe\xc2\x47\x1b\x01\x65\xbf"), DECODE),
    (Some(b"\x03\x80\xe6\xf5\xc6\x4c\x1a\x40"), DECODE),
    (Some(&GREATEST), DECODE),
    (Some(&LEAST), DECODE),
    (Some(&[0; 9]), SIZE),
    (None, WAS_NULL),
];

#[test]
fn timestamps_are_microseconds_from_2000(rt: HostRuntime) -> Result<(), Fail> {
    let (first, last) = (FIRST_INSTANT.to_be_bytes(), LAST_INSTANT.to_be_bytes());
    let rows: [(Timestamp, &[u8]); 4] = [
        (Timestamp::from_second(946_684_800)?, &[0; 8]),
        (
            Timestamp::new(946_684_800, 1_000)?,
            &[0, 0, 0, 0, 0, 0, 0, 1],
        ),
        (Timestamp::MIN, &first),
        (
            Timestamp::from_nanosecond(253_402_207_200_999_999_000)?,
            &last,
        ),
    ];
    has_cells(rt.alloc(), &Type::TIMESTAMPTZ, &rows, &REFUSED_INSTANTS)
}
