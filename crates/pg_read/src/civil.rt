//! Reading dates, times of day and timestamps of `jiff`.
ghost use Rattle.std.specs.Prelude.{◌≡◌, pos};
ghost use Rattle.std.specs.Int.{w32, w64};
ghost use Rattle.jiff.specs.Words.{civil_nanos, epoch_day, time_nanos};
ghost use Rattle.pg_base.specs.Civil.{CountGives, FormCount, IsAfterMidnight, IsDayOf, ReadsDate};
ghost use Rattle.pg_base.specs.Civil.{ReadsDateTime, ReadsInstant, ReadsTime, first_civil, first_day};
ghost use Rattle.pg_base.specs.Civil.{first_fault_count, first_instant, instant_nanos, last_civil, last_day};
ghost use Rattle.pg_base.specs.Civil.{last_instant, last_micros};
ghost use Rattle.pg_base.proofs.CivilLaws.{date_grammar, datetime_grammar, instant_grammar, time_grammar};
ghost use Rattle.pg_types.specs.Content.{is_row};
ghost use Rattle.pg_types.specs.Faults.{Answers, NeverMemory};
ghost use Rattle.pg_base.specs.Timestamps.{IsAfterBase};
ghost use Rattle.pg_base.proofs.SamenessLaws.{content_equivalence};
ghost use Rattle.pg_types.specs.declared.types.built_in.BuiltIn.TheVariants.{Date as DateRow};
ghost use Rattle.pg_types.specs.declared.types.built_in.BuiltIn.TheVariants.{Time as TimeRow};
ghost use Rattle.pg_types.specs.declared.types.built_in.BuiltIn.TheVariants.{Timestamp as TimestampRow};
ghost use Rattle.pg_types.specs.declared.types.built_in.BuiltIn.TheVariants.{Timestamptz};
ghost use Rattle.pg_read.specs.Reading.{EveryCell};
ghost use Rattle.pg_read.specs.Laws.Reading.{plain_single};

use crate::from_sql::FromSql;
use jiff::civil::{Date, DateTime, Time};
use jiff::{SignedDuration, Timestamp};
use pg_base::epoch::{POSTGRES_EPOCH_DAY, POSTGRES_EPOCH_NANOS};
use pg_base::fault::Fault;
use pg_base::protocol::{date_from_sql, time_from_sql, timestamp_from_sql};
use pg_base::types::PgType;
use std::alloc::Global;

/// Returns the date that is `days` days after 2000-01-01.
fn date_of(days: i32) -> Result<Date, Fault>
    ensures gives { Answers (CountGives first_day last_day IsDayOf days) result }
    ensures never_memory { NeverMemory result }
{
    let base = Date::ZERO;
    let base_day = i64::from(base.to_plain().to_unix_epoch_day());
    let distance = i64::from(days) + i64::from(POSTGRES_EPOCH_DAY) - base_day;
    match base.checked_add(SignedDuration::from_secs(distance * 86_400)) {
        Ok(date) => Ok(date),
        Err(_) => Err(Fault::Decode),
    }
}

/// Returns the time that is `micros` microseconds after midnight.
fn time_of(micros: i64) -> Result<Time, Fault>
    ensures gives { Answers (CountGives (pos 0) last_micros IsAfterMidnight micros) result }
    ensures never_memory { NeverMemory result }
{
    match Time::midnight().checked_add(SignedDuration::from_micros(micros)) {
        Ok(time) => Ok(time),
        Err(_) => Err(Fault::Decode),
    }
}

/// Returns the civil datetime that is `micros` microseconds after 2000-01-01 00:00:00.
fn datetime_of(micros: i64) -> Result<DateTime, Fault>
    ensures gives { Answers (CountGives first_civil last_civil (IsAfterBase civil_nanos) micros) result }
    ensures never_memory { NeverMemory result }
{
    let base = DateTime::ZERO;
    let distance = POSTGRES_EPOCH_NANOS + i128::from(micros) * 1_000
        - base.to_plain().to_nanosecond();
    match base.checked_add(SignedDuration::from_nanos_i128(distance)) {
        Ok(datetime) => Ok(datetime),
        Err(_) => Err(Fault::Decode),
    }
}

/// Returns the instant that is `micros` microseconds after 2000-01-01 00:00:00 UTC.
fn instant_of(micros: i64) -> Result<Timestamp, Fault>
    ensures gives { Answers (CountGives first_instant last_instant (IsAfterBase instant_nanos) micros) result }
    ensures never_memory { NeverMemory result }
{
    match Timestamp::from_nanosecond(POSTGRES_EPOCH_NANOS + i128::from(micros) * 1_000) {
        Ok(instant) => Ok(instant),
        Err(_) => Err(Fault::Decode),
    }
}

/// Reads DATE: the days from 2000-01-01 in 4 bytes, big-endian, in two's complement (`date_recv`).
/// Any other length is refused with `Size`, and a date before -9999-01-01 or after 9999-12-31 with
/// `Decode`; so are the two numbers that PostgreSQL reads as infinities. NULL is refused with
/// `WasNull`.
impl<'a> FromSql<'a> for Date {
    ghost same = { λ v w. epoch_day v ≡ epoch_day w };

    ghost accepted = { is_row DateRow };

    ghost reads = { λ _. ReadsDate };

    ghost memory_free = { EveryCell };

    ghost equivalence = { content_equivalence epoch_day };

    ghost single = { λ _ _. plain_single (λ v w. epoch_day v ≡ epoch_day w)
        (FormCount w32 first_day last_day IsDayOf) (first_fault_count w32 first_day last_day) date_grammar };

    #[tactic(auto, using(pg_base::proofs::CivilLaws::answered_4))]
    fn from_sql(_alloc: Global, _ty: &PgType, raw: &'a [u8]) -> Result<Date, Fault> {
        date_of(date_from_sql(raw)?)
    }

    fn from_sql_null(_alloc: Global, _ty: &PgType) -> Result<Date, Fault> {
        Err(Fault::WasNull)
    }

    fn accepts(ty: &PgType) -> bool {
        ty.is(&PgType::DATE)
    }
}

/// Reads TIME: the microseconds from midnight in 8 bytes, big-endian, in two's complement
/// (`time_recv`). Any other length is refused with `Size`, and a number outside 0 to 86,399,999,999
/// with `Decode`; so is 24:00:00. NULL is refused with `WasNull`.
impl<'a> FromSql<'a> for Time {
    ghost same = { λ v w. time_nanos v ≡ time_nanos w };

    ghost accepted = { is_row TimeRow };

    ghost reads = { λ _. ReadsTime };

    ghost memory_free = { EveryCell };

    ghost equivalence = { content_equivalence time_nanos };

    ghost single = { λ _ _. plain_single (λ v w. time_nanos v ≡ time_nanos w)
        (FormCount w64 (pos 0) last_micros IsAfterMidnight) (first_fault_count w64 (pos 0) last_micros) time_grammar };

    #[tactic(auto, using(pg_base::proofs::CivilLaws::answered_8))]
    fn from_sql(_alloc: Global, _ty: &PgType, raw: &'a [u8]) -> Result<Time, Fault> {
        time_of(time_from_sql(raw)?)
    }

    fn from_sql_null(_alloc: Global, _ty: &PgType) -> Result<Time, Fault> {
        Err(Fault::WasNull)
    }

    fn accepts(ty: &PgType) -> bool {
        ty.is(&PgType::TIME)
    }
}

/// Reads TIMESTAMP: the microseconds from 2000-01-01 00:00:00 in 8 bytes, big-endian, in two's
/// complement (`timestamp_recv`). Any other length is refused with `Size`, and a timestamp before
/// -9999-01-01 00:00:00 or after 9999-12-31 23:59:59.999999 with `Decode`; so are the two numbers
/// that PostgreSQL reads as infinities. NULL is refused with `WasNull`.
impl<'a> FromSql<'a> for DateTime {
    ghost same = { λ v w. civil_nanos v ≡ civil_nanos w };

    ghost accepted = { is_row TimestampRow };

    ghost reads = { λ _. ReadsDateTime };

    ghost memory_free = { EveryCell };

    ghost equivalence = { content_equivalence civil_nanos };

    ghost single = { λ _ _. plain_single (λ v w. civil_nanos v ≡ civil_nanos w)
        (FormCount w64 first_civil last_civil (IsAfterBase civil_nanos))
        (first_fault_count w64 first_civil last_civil) datetime_grammar };

    #[tactic(auto, using(pg_base::proofs::CivilLaws::answered_8))]
    fn from_sql(_alloc: Global, _ty: &PgType, raw: &'a [u8]) -> Result<DateTime, Fault> {
        datetime_of(timestamp_from_sql(raw)?)
    }

    fn from_sql_null(_alloc: Global, _ty: &PgType) -> Result<DateTime, Fault> {
        Err(Fault::WasNull)
    }

    fn accepts(ty: &PgType) -> bool {
        ty.is(&PgType::TIMESTAMP)
    }
}

/// Reads TIMESTAMPTZ: the microseconds from 2000-01-01 00:00:00 UTC in 8 bytes, big-endian, in
/// two's complement (`timestamptz_recv`). Any other length is refused with `Size`, and an instant
/// before [`Timestamp::MIN`] or after [`Timestamp::MAX`] with `Decode`; so are the two numbers that
/// PostgreSQL reads as infinities. NULL is refused with `WasNull`.
impl<'a> FromSql<'a> for Timestamp {
    ghost same = { λ v w. instant_nanos v ≡ instant_nanos w };

    ghost accepted = { is_row Timestamptz };

    ghost reads = { λ _. ReadsInstant };

    ghost memory_free = { EveryCell };

    ghost equivalence = { content_equivalence instant_nanos };

    ghost single = { λ _ _. plain_single (λ v w. instant_nanos v ≡ instant_nanos w)
        (FormCount w64 first_instant last_instant (IsAfterBase instant_nanos))
        (first_fault_count w64 first_instant last_instant) instant_grammar };

    #[tactic(auto, using(pg_base::proofs::CivilLaws::answered_8))]
    fn from_sql(_alloc: Global, _ty: &PgType, raw: &'a [u8]) -> Result<Timestamp, Fault> {
        instant_of(timestamp_from_sql(raw)?)
    }

    fn from_sql_null(_alloc: Global, _ty: &PgType) -> Result<Timestamp, Fault> {
        Err(Fault::WasNull)
    }

    fn accepts(ty: &PgType) -> bool {
        ty.is(&PgType::TIMESTAMPTZ)
    }
}
