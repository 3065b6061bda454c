//! Timestamps, in microseconds from 2000-01-01 00:00:00.
ghost use Rattle.std.specs.Prelude.{Some};
ghost use Rattle.std.specs.Int.{w64};
ghost use Rattle.pg_base.specs.Appending.{Appends};
ghost use Rattle.pg_base.specs.Cells.{be};
ghost use Rattle.pg_types.specs.Faults.{Answers, NeverMemory};
ghost use Rattle.pg_base.specs.Formats.{Decodes};
ghost use Rattle.pg_base.specs.Numbers.{FormSigned, first_fault_number};

use super::{int8_from_sql, int8_to_sql};
use crate::fault::Fault;
use bytes::BytesMut;
use std::alloc::Global;

/// Reads TIMESTAMP and TIMESTAMPTZ: the microseconds from 2000-01-01 00:00:00, in UTC for
/// TIMESTAMPTZ, in 8 bytes, big-endian, in two's complement (`timestamp_recv`, `timestamptz_recv`).
/// Any other length is refused with `Size`; every number is returned, also the two that PostgreSQL
/// reads as infinities.
pub fn timestamp_from_sql(raw: &[u8]) -> Result<i64, Fault>
    ensures outcome { Answers (Decodes (FormSigned w64) (first_fault_number 8) raw.now) result }
    ensures never_memory { NeverMemory result }
{
    int8_from_sql(raw)
}

/// Appends TIMESTAMP and TIMESTAMPTZ: the microseconds from 2000-01-01 00:00:00, in UTC for
/// TIMESTAMPTZ, in 8 bytes, big-endian, in two's complement (`timestamp_send`, `timestamptz_send`).
#[inline(always)]
pub fn timestamp_to_sql(alloc: Global, v: i64, out: &mut BytesMut) -> Result<(), Fault>
    ensures { Appends (Some (be w64 v)) out.old out.new result }
{
    int8_to_sql(alloc, v, out)
}
