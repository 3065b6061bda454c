//! Intervals, in three parts: microseconds, days and months.
ghost use Rattle.std.specs.Prelude.{Some};
ghost use Rattle.pg_base.specs.Appending.{Appends};
ghost use Rattle.pg_types.specs.Faults.{Answers, NeverMemory};
ghost use Rattle.pg_base.specs.Formats.{Decodes};
ghost use Rattle.pg_base.specs.Interval.{FormParts, interval_bytes, interval_width};
ghost use Rattle.pg_base.specs.Numbers.{first_fault_number};

use super::{int4_from_sql, int8_from_sql};
use crate::fault::Fault;
use bytes::BytesMut;
use std::alloc::Global;

/// Reads INTERVAL: the microseconds in 8 bytes, then the days and the months in 4 bytes each,
/// big-endian, in two's complement (`interval_recv`). Any other length than 16 bytes is refused
/// with `Size`; all 16 bytes are a value, also the two that PostgreSQL reads as infinities.
#[tactic(auto, using(crate::proofs::IntervalLaws::spelt_by_parts))]
pub fn interval_from_sql(raw: &[u8]) -> Result<(i64, i32, i32), Fault>
    ensures outcome { Answers
        (Decodes FormParts (first_fault_number interval_width) raw.now) result }
    ensures never_memory { NeverMemory result }
{
    if raw.len() != 16 {
        return Err(Fault::Size);
    }
    let (microseconds, rest) = raw.split_at(8);
    let (days, months) = rest.split_at(4);
    Ok((
        int8_from_sql(microseconds)?,
        int4_from_sql(days)?,
        int4_from_sql(months)?,
    ))
}

/// Appends INTERVAL: the microseconds in 8 bytes, then the days and the months in 4 bytes each,
/// big-endian, in two's complement (`interval_send`).
#[inline(always)]
pub fn interval_to_sql(
    _alloc: Global,
    microseconds: i64,
    days: i32,
    months: i32,
    out: &mut BytesMut,
) -> Result<(), Fault>
    ensures { Appends (Some (interval_bytes microseconds days months)) out.old out.new result }
{
    // The room is reserved at once, so that a failed allocation leaves the buffer as it was.
    out.reserve(16)?;
    out.extend_reserved(&microseconds.to_be_bytes());
    out.extend_reserved(&days.to_be_bytes());
    out.extend_reserved(&months.to_be_bytes());
    Ok(())
}
