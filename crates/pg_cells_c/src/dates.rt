//! Dates, times of day, timestamps and intervals.
#![tactic(auto, using(crate::proofs::ReadingSteps::reads_into))]

ghost use Rattle.std.specs.Prelude.{◌≡◌};
ghost use Rattle.std.specs.Int.{w32, w64};
ghost use Rattle.pg_base.specs.Formats.{Decodes};
ghost use Rattle.pg_base.specs.Cells.{be};
ghost use Rattle.pg_base.specs.Interval.{interval_bytes, interval_width};
ghost use Rattle.pg_base.specs.Numbers.{FormSigned, first_fault_number};
ghost use Rattle.pg_cells_c.specs.Dates.{FormDateParts, FormIntervalParts, FormTimestampParts, infinity_of};
ghost use Rattle.pg_cells_c.specs.Readings.{ReadsInto};
ghost use Rattle.pg_cells_c.specs.Writings.{WritesInto};
ghost use Rattle.pg_types.specs.Faults.{Answers, NeverMemory};

use crate::buffers::{write, write_parts};
use crate::store::store;
use pg_base::protocol::{date_from_sql, interval_from_sql, time_from_sql, timestamp_from_sql};
use pg_types::fault::Fault;

/// A date: its days from 2000-01-01, and whether they are an infinity: 1 for `infinity`, -1 for
/// `-infinity`, and 0 for any other date.
#[derive(Clone, Copy)]
#[repr(C)]
pub struct Date {
    pub days: i32,
    pub infinity: i32,
}

/// A timestamp: its microseconds from 2000-01-01 00:00:00, and whether they are an infinity, as in
/// [`Date`].
#[derive(Clone, Copy)]
#[repr(C)]
pub struct Timestamp {
    pub microseconds: i64,
    pub infinity: i32,
}

/// The three parts of an interval.
#[derive(Clone, Copy)]
#[repr(C)]
pub struct Interval {
    pub microseconds: i64,
    pub days: i32,
    pub months: i32,
}

/// Returns the date of these days.
fn date_of(days: i32) -> Date
    ensures days { result.days ≡ days }
    ensures infinity { result.infinity ≡ infinity_of w32 days }
{
    let infinity = match days {
        i32::MAX => 1,
        i32::MIN => -1,
        _ => 0,
    };
    Date { days, infinity }
}

/// Returns the timestamp of these microseconds.
fn timestamp_of(microseconds: i64) -> Timestamp
    ensures microseconds { result.microseconds ≡ microseconds }
    ensures infinity { result.infinity ≡ infinity_of w64 microseconds }
{
    let infinity = match microseconds {
        i64::MAX => 1,
        i64::MIN => -1,
        _ => 0,
    };
    Timestamp {
        microseconds,
        infinity,
    }
}

/// Reads the date of a cell.
fn date_in(cell: &[u8]) -> Result<Date, Fault>
    ensures outcome { Answers (Decodes FormDateParts (first_fault_number 4) cell.now) result }
    ensures never_memory { NeverMemory result }
{
    Ok(date_of(date_from_sql(cell)?))
}

/// Reads the timestamp of a cell.
fn timestamp_in(cell: &[u8]) -> Result<Timestamp, Fault>
    ensures outcome { Answers (Decodes FormTimestampParts (first_fault_number 8) cell.now) result }
    ensures never_memory { NeverMemory result }
{
    Ok(timestamp_of(timestamp_from_sql(cell)?))
}

/// Reads the parts of an interval.
fn interval_in(cell: &[u8]) -> Result<Interval, Fault>
    ensures outcome { Answers (Decodes FormIntervalParts (first_fault_number interval_width) cell.now) result }
    ensures never_memory { NeverMemory result }
{
    let (microseconds, days, months) = interval_from_sql(cell)?;
    Ok(Interval {
        microseconds,
        days,
        months,
    })
}

/// Reads DATE (`date_recv`).
#[unsafe(no_mangle)]
pub extern "C" fn pgc_date_read(cell: &[u8], date: &mut Date) -> u32
    ensures { ReadsInto (Decodes FormDateParts (first_fault_number 4) cell.now) date.old date.new result }
{
    store(date_in(cell), date)
}

/// Writes DATE (`date_send`): the days from 2000-01-01.
#[unsafe(no_mangle)]
pub extern "C" fn pgc_date_write(days: i32, out: &mut [u8]) -> usize
    ensures { WritesInto (be w32 days) out.old out.new result }
{
    write(&days.to_be_bytes(), out)
}

/// Reads TIME (`time_recv`): the microseconds from midnight.
#[unsafe(no_mangle)]
pub extern "C" fn pgc_time_read(cell: &[u8], microseconds: &mut i64) -> u32
    ensures { ReadsInto (Decodes (FormSigned w64) (first_fault_number 8) cell.now)
        microseconds.old microseconds.new result }
{
    store(time_from_sql(cell), microseconds)
}

/// Writes TIME (`time_send`): the microseconds from midnight.
#[unsafe(no_mangle)]
pub extern "C" fn pgc_time_write(microseconds: i64, out: &mut [u8]) -> usize
    ensures { WritesInto (be w64 microseconds) out.old out.new result }
{
    write(&microseconds.to_be_bytes(), out)
}

/// Reads TIMESTAMP and TIMESTAMPTZ (`timestamp_recv`, `timestamptz_recv`).
#[unsafe(no_mangle)]
pub extern "C" fn pgc_timestamp_read(cell: &[u8], timestamp: &mut Timestamp) -> u32
    ensures { ReadsInto (Decodes FormTimestampParts (first_fault_number 8) cell.now)
        timestamp.old timestamp.new result }
{
    store(timestamp_in(cell), timestamp)
}

/// Writes TIMESTAMP and TIMESTAMPTZ (`timestamp_send`, `timestamptz_send`): the microseconds from
/// 2000-01-01 00:00:00.
#[unsafe(no_mangle)]
pub extern "C" fn pgc_timestamp_write(microseconds: i64, out: &mut [u8]) -> usize
    ensures { WritesInto (be w64 microseconds) out.old out.new result }
{
    write(&microseconds.to_be_bytes(), out)
}

/// Reads INTERVAL (`interval_recv`).
#[unsafe(no_mangle)]
pub extern "C" fn pgc_interval_read(cell: &[u8], interval: &mut Interval) -> u32
    ensures { ReadsInto (Decodes FormIntervalParts (first_fault_number interval_width) cell.now)
        interval.old interval.new result }
{
    store(interval_in(cell), interval)
}

/// Writes INTERVAL (`interval_send`).
#[unsafe(no_mangle)]
pub extern "C" fn pgc_interval_write(
    microseconds: i64,
    days: i32,
    months: i32,
    out: &mut [u8],
) -> usize
    ensures { WritesInto (interval_bytes microseconds days months) out.old out.new result }
{
    write_parts(
        &microseconds.to_be_bytes(),
        &days.to_be_bytes(),
        &months.to_be_bytes(),
        out,
    )
}
