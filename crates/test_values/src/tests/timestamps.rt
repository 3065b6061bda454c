//! Timestamps as `UnixTime`.

use postgres_types::{Type, UnixTime};
use std::test::Fail;
use test_support::code::TRANSMIT;
use test_support::{debugs, has_cells, refuses_both, same, unix, writes};

/// Seconds and nanoseconds from 1970, and the microseconds from 2000.
const ROWS: [(i64, u32, [u8; 8]); 3] = [
    (0, 0, [0xff, 0xfc, 0xa2, 0xfe, 0xc4, 0xc8, 0x20, 0x00]),
    (946_684_799, 999_999_000, [0xff; 8]),
    (-9_222_425_352_055, 224_192_000, [0x80, 0, 0, 0, 0, 0, 0, 0]),
];

#[test]
fn timestamps_are_microseconds(rt: HostRuntime) -> Result<(), Fail> {
    let alloc = rt.alloc();
    for (secs, nanos, cell) in ROWS {
        let row = [(unix(secs, nanos)?, cell.as_slice())];
        has_cells(alloc, &Type::TIMESTAMP, &row, &[])?;
        has_cells(alloc, &Type::TIMESTAMPTZ, &row, &[])?;
    }
    Ok(())
}

/// Timestamps between two microseconds, and the microsecond nearer to 2000.
const FINER: [(i64, u32, [u8; 8]); 2] = [
    (946_684_799, 999_999_500, [0; 8]),
    (946_684_799, 999_998_500, [0xff; 8]),
];

#[test]
fn finer_timestamps_are_truncated_toward_2000(rt: HostRuntime) -> Result<(), Fail> {
    let alloc = rt.alloc();
    for (secs, nanos, cell) in FINER {
        writes(alloc, &unix(secs, nanos)?, &Type::TIMESTAMP, &cell)?;
    }
    Ok(())
}

/// Its microseconds do not fit in 8 bytes.
#[test]
fn a_timestamp_out_of_range_is_not_written(rt: HostRuntime) -> Result<(), Fail> {
    let time = unix(9_224_318_721_654, 775_808_000)?;
    same(time.to_postgres_micros(), None)?;
    refuses_both(rt.alloc(), &time, &Type::TIMESTAMP, TRANSMIT)
}

#[test]
fn timestamps_have_parts_and_microseconds(rt: HostRuntime) -> Result<(), Fail> {
    let time = UnixTime::from_postgres_micros(-1);
    same((time.secs(), time.nanos()), (946_684_799, 999_999_000))?;
    same(time.to_postgres_micros(), Some(-1))?;
    let text = "UnixTime { secs: 946684799, nanos: 999999000 }";
    debugs(rt.alloc(), &time, text)
}
