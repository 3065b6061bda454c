//! What the library's own types promise beyond the contract of the trait.
ghost use Rattle.std.specs.Prelude.{◌≡◌, None, IsTrue, pos};
ghost use Rattle.std.specs.Int.{w32, w64};
ghost use Rattle.jiff.specs.Types.{Date as JiffDate, Time as JiffTime, DateTime, Timestamp as JiffTimestamp};
ghost use Rattle.jiff.specs.Words.{civil_nanos};
ghost use Rattle.pg_base.specs.Cells.{Cell, cell_of};
ghost use Rattle.pg_base.specs.Civil.{FormCount, IsAfterMidnight, IsDayOf, first_civil, first_day};
ghost use Rattle.pg_base.specs.Civil.{first_fault_count, first_instant, instant_nanos, last_civil};
ghost use Rattle.pg_base.specs.Civil.{last_day, last_instant, last_micros};
ghost use Rattle.pg_base.specs.Numbers.{first_fault_number};
ghost use Rattle.pg_base.specs.Timestamps.{FormTimestamp, IsAfterBase, nanos_of};
ghost use Rattle.pg_base.specs.declared.unix_time.UnixTime.{UnixTime as PlainUnixTime};
ghost use Rattle.pg_types.specs.Content.{content};
ghost use Rattle.pg_types.specs.Faults.{Outcome};

use crate::from_sql::{FromSql, from_sql_nullable};
use jiff::civil;
use pg_base::bits::BitVec;
use pg_base::interval::Interval;
use pg_base::lsn::PgLsn;
use pg_base::network::{IpCidr, IpInet, MacAddress};
use pg_base::special::{Date, Timestamp};
use pg_base::types::PgType;
use pg_base::unix_time::UnixTime;
use serde_json::Value;
use std::alloc::Global;
use std::borrow::CowStr;
use std::boxed::{BoxedSlice, BoxedStr};
use std::collections::HashMap;
use std::net::IpAddr;
use uuid::Uuid;

/// Reading a `T` never returns `Memory`.
fn never_answers_memory<'a, T: FromSql<'a>>()
    requires { (cell : Cell) → T.memory_free cell }
{}

/// Reading NULL as a `T` never returns `Memory`.
fn never_answers_memory_at_null<'a, T: FromSql<'a>>()
    requires { T.memory_free None }
{}

/// The types that are read without memory. An array, an option, a `Date` and a `Timestamp` are where
/// what they contain is.
pub fn types_read_without_memory() {
    never_answers_memory::<bool>();
    never_answers_memory::<i8>();
    never_answers_memory::<i16>();
    never_answers_memory::<i32>();
    never_answers_memory::<i64>();
    never_answers_memory::<u32>();
    never_answers_memory::<&str>();
    never_answers_memory::<CowStr>();
    never_answers_memory::<&[u8]>();
    never_answers_memory::<IpAddr>();
    never_answers_memory::<IpInet>();
    never_answers_memory::<IpCidr>();
    never_answers_memory::<MacAddress>();
    never_answers_memory::<Uuid>();
    never_answers_memory::<PgLsn>();
    never_answers_memory::<civil::Date>();
    never_answers_memory::<civil::Time>();
    never_answers_memory::<civil::DateTime>();
    never_answers_memory::<jiff::Timestamp>();
    never_answers_memory::<UnixTime>();
    never_answers_memory::<Interval>();
    never_answers_memory::<Date<civil::Date>>();
    never_answers_memory::<Timestamp<UnixTime>>();
    never_answers_memory::<Option<i32>>();
    never_answers_memory::<[i32; 2]>();
}

/// The types of which only NULL is read without memory.
pub fn types_whose_null_is_read_without_memory() {
    never_answers_memory_at_null::<String>();
    never_answers_memory_at_null::<BoxedStr>();
    never_answers_memory_at_null::<Vec<u8>>();
    never_answers_memory_at_null::<BitVec>();
    never_answers_memory_at_null::<Value>();
    never_answers_memory_at_null::<HashMap<String, Option<String>>>();
    never_answers_memory_at_null::<Box<i32>>();
    never_answers_memory_at_null::<Box<Option<i32>>>();
    never_answers_memory_at_null::<Date<String>>();
    never_answers_memory_at_null::<Timestamp<String>>();
    never_answers_memory_at_null::<Option<String>>();
    never_answers_memory_at_null::<[String; 2]>();
    never_answers_memory_at_null::<Vec<i32>>();
    never_answers_memory_at_null::<BoxedSlice<i32>>();
}

/// A cell that is read without allocating has an outcome: a value, or a fault. By the law `single`
/// of the trait it has no other one.
pub fn cell_has_outcome<'a, T: FromSql<'a>>(alloc: Global, ty: &PgType, raw: Option<&'a [u8]>)
    requires accepted { IsTrue (T.accepted (content ty.now)) }
    requires memory_free { T.memory_free (cell_of raw) }
    ensures { (o : Outcome T) × T.reads (content ty.now) (cell_of raw.entry) o }
{
    let _ = from_sql_nullable::<T>(alloc, ty, raw);
}

/// DATE: bytes that pass every check spell a date.
pub fn date_format(alloc: Global, raw: &[u8])
    ensures { first_fault_count w32 first_day last_day raw.now ≡ None →
        (v : JiffDate) × FormCount w32 first_day last_day IsDayOf raw.now v }
{
    cell_has_outcome::<civil::Date>(alloc, &PgType::DATE, Some(raw));
}

/// TIME: bytes that pass every check spell a time.
pub fn time_format(alloc: Global, raw: &[u8])
    ensures { first_fault_count w64 (pos 0) last_micros raw.now ≡ None →
        (v : JiffTime) × FormCount w64 (pos 0) last_micros IsAfterMidnight raw.now v }
{
    cell_has_outcome::<civil::Time>(alloc, &PgType::TIME, Some(raw));
}

/// TIMESTAMP: bytes that pass every check spell a civil datetime.
pub fn datetime_format(alloc: Global, raw: &[u8])
    ensures { first_fault_count w64 first_civil last_civil raw.now ≡ None →
        (v : DateTime) × FormCount w64 first_civil last_civil (IsAfterBase civil_nanos) raw.now v }
{
    cell_has_outcome::<civil::DateTime>(alloc, &PgType::TIMESTAMP, Some(raw));
}

/// TIMESTAMPTZ: bytes that pass every check spell an instant.
pub fn instant_format(alloc: Global, raw: &[u8])
    ensures { first_fault_count w64 first_instant last_instant raw.now ≡ None →
        (v : JiffTimestamp) × FormCount w64 first_instant last_instant (IsAfterBase instant_nanos) raw.now v }
{
    cell_has_outcome::<jiff::Timestamp>(alloc, &PgType::TIMESTAMPTZ, Some(raw));
}

/// TIMESTAMP and TIMESTAMPTZ: bytes that pass every check spell a `UnixTime`.
pub fn unix_time_format(alloc: Global, raw: &[u8])
    ensures { first_fault_number 8 raw.now ≡ None → (v : PlainUnixTime) × FormTimestamp nanos_of raw.now v }
{
    cell_has_outcome::<UnixTime>(alloc, &PgType::TIMESTAMP, Some(raw));
}
