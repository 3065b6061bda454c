//! Dates and timestamps with infinities.

use jiff::civil;
use own_types::newtype::Days;
use postgres_types::{Date, Timestamp, Type, UnixTime};
use std::test::Fail;
use test_support::code::{DECODE, SIZE};
use test_support::{debugs, has_cells, reads_back, unix};

const LAST_DATE: [u8; 4] = [0x7f, 0xff, 0xff, 0xff];

#[test]
fn dates_have_infinities(rt: HostRuntime) -> Result<(), Fail> {
    let rows: [(Date<civil::Date>, &[u8]); 3] = [
        (Date::PosInfinity, &LAST_DATE),
        (Date::NegInfinity, &[0x80, 0, 0, 0]),
        (Date::Value(civil::Date::new(2000, 1, 8)?), &[0, 0, 0, 7]),
    ];
    let far = [(Some([0x7fu8, 0xff, 0xff, 0xfe].as_slice()), DECODE)];
    has_cells(rt.alloc(), &Type::DATE, &rows, &far)?;
    let inner: Date<Date<civil::Date>> = Date::Value(Date::PosInfinity);
    reads_back(
        rt.alloc(),
        &Type::DATE,
        &inner,
        &LAST_DATE,
        Date::PosInfinity,
    )
}

#[test]
fn timestamps_have_infinities(rt: HostRuntime) -> Result<(), Fail> {
    let midnight = civil::Date::new(2000, 1, 1)?.to_datetime(civil::Time::midnight());
    let rows: [(Timestamp<civil::DateTime>, &[u8]); 3] = [
        (
            Timestamp::PosInfinity,
            &[0x7f, 0xff, 0xff, 0xff, 0xff, 0xff, 0xff, 0xff],
        ),
        (Timestamp::NegInfinity, &[0x80, 0, 0, 0, 0, 0, 0, 0]),
        (Timestamp::Value(midnight), &[0; 8]),
    ];
    let truncated = [(Some(LAST_DATE.as_slice()), SIZE)];
    has_cells(rt.alloc(), &Type::TIMESTAMP, &rows, &truncated)
}

#[test]
fn dates_and_timestamps_are_copied_and_have_debug_texts(rt: HostRuntime) -> Result<(), Fail> {
    let day = Date::Value(Days(3)).clone()?;
    debugs(
        rt.alloc(),
        &(day, Date::<Days>::PosInfinity),
        "(Value(Days(3)), PosInfinity)",
    )?;
    let start: Timestamp<UnixTime> = Timestamp::NegInfinity;
    let time = Timestamp::Value(unix(1, 0)?);
    debugs(
        rt.alloc(),
        &(start.clone()?, time),
        "(NegInfinity, Value(UnixTime { secs: 1, nanos: 0 }))",
    )
}
