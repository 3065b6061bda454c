//! Writing dates, times of day and timestamps of `jiff`.
ghost use Rattle.std.specs.Prelude.{◌≡◌, ◌/◌, ◌-ℤ◌, int_div, pos, true, codes};
ghost use Rattle.jiff.specs.Words.{civil_nanos, epoch_day, time_nanos};
ghost use Rattle.pg_base.specs.Civil.{base_day, instant_nanos, wire_date, wire_datetime, wire_instant, wire_time};
ghost use Rattle.pg_types.specs.Content.{is_row};
ghost use Rattle.pg_base.specs.Timestamps.{whole_micros};
ghost use Rattle.pg_types.specs.declared.types.built_in.BuiltIn.TheVariants.{Date as DateRow};
ghost use Rattle.pg_types.specs.declared.types.built_in.BuiltIn.TheVariants.{Time as TimeRow};
ghost use Rattle.pg_types.specs.declared.types.built_in.BuiltIn.TheVariants.{Timestamp as TimestampRow};
ghost use Rattle.pg_types.specs.declared.types.built_in.BuiltIn.TheVariants.{Timestamptz};

use crate::to_sql::{ToSql, check_type};
use bytes::BytesMut;
use jiff::Timestamp;
use jiff::civil::{Date, DateTime, Time};
use pg_base::epoch::{POSTGRES_EPOCH_DAY, POSTGRES_EPOCH_NANOS};
use pg_base::fault::Fault;
use pg_base::format::{Format, IsNull};
use pg_base::protocol::{date_to_sql, time_to_sql, timestamp_to_sql};
use pg_base::types::PgType;
use std::alloc::Global;

/// Returns the days from 2000-01-01 to a date.
fn days_of(date: Date) -> i32
    ensures { result ≡ epoch_day date -ℤ base_day }
{
    date.to_plain().to_unix_epoch_day() - POSTGRES_EPOCH_DAY
}

/// Returns the microseconds from midnight to a time, truncated.
fn micros_of_time(time: Time) -> i64
    ensures { result ≡ pos (time_nanos time / 1000) }
{
    (time.to_plain().to_nanosecond() / 1_000) as i64
}

/// Returns a thousandth of a number of nanoseconds, truncated toward zero. Nanoseconds that fit in
/// 64 bits, as in the years from 1708 to 2292, are divided in 64 bits, because a division in 128
/// bits takes many times as long.
fn thousandth(nanos: i128) -> i128
    ensures { result ≡ int_div nanos (pos 1000) }
{
    match i64::try_from(nanos) {
        Ok(nanos) => i128::from(nanos / 1_000),
        Err(_) => nanos / 1_000,
    }
}

/// Returns the microseconds from 2000-01-01 00:00:00 to a civil datetime, truncated toward zero.
fn micros_of_datetime(datetime: DateTime) -> i64
    ensures { result ≡ whole_micros (civil_nanos datetime) }
{
    thousandth(datetime.to_plain().to_nanosecond() - POSTGRES_EPOCH_NANOS) as i64
}

/// Returns the microseconds from 2000-01-01 00:00:00 UTC to an instant, truncated toward zero.
fn micros_of_instant(instant: Timestamp) -> i64
    ensures { result ≡ whole_micros (instant_nanos instant) }
{
    thousandth(instant.as_nanosecond() - POSTGRES_EPOCH_NANOS) as i64
}

/// Writes DATE: the days from 2000-01-01 in 4 bytes, big-endian, in two's complement (`date_send`).
/// No date is refused, and none is written as a number that PostgreSQL reads as an infinity.
impl ToSql for Date {
    ghost accepted = { is_row DateRow };

    ghost name = { codes "jiff::civil::Date" };

    ghost wire = { λ _ v. wire_date v };

    ghost by_room = { λ _. Unit {0} };

    ghost refuses_memory_free = { true };

    #[inline(always)]
    fn to_sql(&self, alloc: Global, _ty: &PgType, out: &mut BytesMut) -> Result<IsNull, Fault> {
        date_to_sql(alloc, days_of(*self), out)?;
        Ok(IsNull::No)
    }

    fn accepts(ty: &PgType) -> bool {
        ty.is(&PgType::DATE)
    }

    fn to_sql_checked(
        &self,
        alloc: Global,
        ty: &PgType,
        out: &mut BytesMut,
    ) -> Result<IsNull, Fault> {
        check_type(Self::accepts(ty), ty, "jiff::civil::Date")?;
        self.to_sql(alloc, ty, out)
    }

    fn encode_format(&self, _ty: &PgType) -> Format {
        Format::Binary
    }
}

/// Writes TIME: the microseconds from midnight, truncated, in 8 bytes, big-endian, in two's
/// complement (`time_send`). No time is refused.
impl ToSql for Time {
    ghost accepted = { is_row TimeRow };

    ghost name = { codes "jiff::civil::Time" };

    ghost wire = { λ _ v. wire_time v };

    ghost by_room = { λ _. Unit {0} };

    ghost refuses_memory_free = { true };

    #[inline(always)]
    fn to_sql(&self, alloc: Global, _ty: &PgType, out: &mut BytesMut) -> Result<IsNull, Fault> {
        time_to_sql(alloc, micros_of_time(*self), out)?;
        Ok(IsNull::No)
    }

    fn accepts(ty: &PgType) -> bool {
        ty.is(&PgType::TIME)
    }

    fn to_sql_checked(
        &self,
        alloc: Global,
        ty: &PgType,
        out: &mut BytesMut,
    ) -> Result<IsNull, Fault> {
        check_type(Self::accepts(ty), ty, "jiff::civil::Time")?;
        self.to_sql(alloc, ty, out)
    }

    fn encode_format(&self, _ty: &PgType) -> Format {
        Format::Binary
    }
}

/// Writes TIMESTAMP: the microseconds from 2000-01-01 00:00:00, truncated toward zero, in 8 bytes,
/// big-endian, in two's complement (`timestamp_send`). No timestamp is refused, and none is written
/// as a number that PostgreSQL reads as an infinity.
impl ToSql for DateTime {
    ghost accepted = { is_row TimestampRow };

    ghost name = { codes "jiff::civil::DateTime" };

    ghost wire = { λ _ v. wire_datetime v };

    ghost by_room = { λ _. Unit {0} };

    ghost refuses_memory_free = { true };

    #[inline(always)]
    fn to_sql(&self, alloc: Global, _ty: &PgType, out: &mut BytesMut) -> Result<IsNull, Fault> {
        timestamp_to_sql(alloc, micros_of_datetime(*self), out)?;
        Ok(IsNull::No)
    }

    fn accepts(ty: &PgType) -> bool {
        ty.is(&PgType::TIMESTAMP)
    }

    fn to_sql_checked(
        &self,
        alloc: Global,
        ty: &PgType,
        out: &mut BytesMut,
    ) -> Result<IsNull, Fault> {
        check_type(Self::accepts(ty), ty, "jiff::civil::DateTime")?;
        self.to_sql(alloc, ty, out)
    }

    fn encode_format(&self, _ty: &PgType) -> Format {
        Format::Binary
    }
}

/// Writes TIMESTAMPTZ: the microseconds from 2000-01-01 00:00:00 UTC, truncated toward zero, in 8
/// bytes, big-endian, in two's complement (`timestamptz_send`). No instant is refused, and none is
/// written as a number that PostgreSQL reads as an infinity.
impl ToSql for Timestamp {
    ghost accepted = { is_row Timestamptz };

    ghost name = { codes "jiff::Timestamp" };

    ghost wire = { λ _ v. wire_instant v };

    ghost by_room = { λ _. Unit {0} };

    ghost refuses_memory_free = { true };

    #[inline(always)]
    fn to_sql(&self, alloc: Global, _ty: &PgType, out: &mut BytesMut) -> Result<IsNull, Fault> {
        timestamp_to_sql(alloc, micros_of_instant(*self), out)?;
        Ok(IsNull::No)
    }

    fn accepts(ty: &PgType) -> bool {
        ty.is(&PgType::TIMESTAMPTZ)
    }

    fn to_sql_checked(
        &self,
        alloc: Global,
        ty: &PgType,
        out: &mut BytesMut,
    ) -> Result<IsNull, Fault> {
        check_type(Self::accepts(ty), ty, "jiff::Timestamp")?;
        self.to_sql(alloc, ty, out)
    }

    fn encode_format(&self, _ty: &PgType) -> Format {
        Format::Binary
    }
}
