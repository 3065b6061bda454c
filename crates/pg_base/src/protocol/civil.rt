//! Dates and times of day.
ghost use Rattle.std.specs.Prelude.{Some};
ghost use Rattle.std.specs.Int.{w32, w64};
ghost use Rattle.pg_base.specs.Appending.{Appends};
ghost use Rattle.pg_base.specs.Cells.{be};
ghost use Rattle.pg_types.specs.Faults.{Answers, NeverMemory};
ghost use Rattle.pg_base.specs.Formats.{Decodes};
ghost use Rattle.pg_base.specs.Numbers.{FormSigned, first_fault_number};

use super::{int4_from_sql, int4_to_sql, int8_from_sql, int8_to_sql};
use crate::fault::Fault;
use bytes::BytesMut;
use std::alloc::Global;

/// Reads DATE: the days from 2000-01-01, in 4 bytes, big-endian, in two's complement (`date_recv`).
/// Any other length is refused with `Size`; every number is returned, also the two that PostgreSQL
/// reads as infinities.
pub fn date_from_sql(raw: &[u8]) -> Result<i32, Fault>
    ensures outcome { Answers (Decodes (FormSigned w32) (first_fault_number 4) raw.now) result }
    ensures never_memory { NeverMemory result }
{
    int4_from_sql(raw)
}

/// Appends DATE: the days from 2000-01-01, in 4 bytes, big-endian, in two's complement
/// (`date_send`).
#[inline(always)]
pub fn date_to_sql(alloc: Global, v: i32, out: &mut BytesMut) -> Result<(), Fault>
    ensures { Appends (Some (be w32 v)) out.old out.new result }
{
    int4_to_sql(alloc, v, out)
}

/// Reads TIME: the microseconds from midnight, in 8 bytes, big-endian, in two's complement
/// (`time_recv`). Any other length is refused with `Size`; every number is returned, also one that
/// no time of day has.
pub fn time_from_sql(raw: &[u8]) -> Result<i64, Fault>
    ensures outcome { Answers (Decodes (FormSigned w64) (first_fault_number 8) raw.now) result }
    ensures never_memory { NeverMemory result }
{
    int8_from_sql(raw)
}

/// Appends TIME: the microseconds from midnight, in 8 bytes, big-endian, in two's complement
/// (`time_send`).
#[inline(always)]
pub fn time_to_sql(alloc: Global, v: i64, out: &mut BytesMut) -> Result<(), Fault>
    ensures { Appends (Some (be w64 v)) out.old out.new result }
{
    int8_to_sql(alloc, v, out)
}
