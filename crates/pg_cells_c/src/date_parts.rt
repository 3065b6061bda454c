//! The parts of dates, times of day and timestamps. Days are those of the proleptic Gregorian
//! calendar.
#![tactic(auto, using(crate::proofs::ReadingSteps::reads_into))]

ghost use Rattle.std.specs.Prelude.{◌≡◌, ◌+ℤ◌, ◌-ℤ◌, ◌*ℤ◌, FitsSigned, MatchOption, ℤ};
ghost use Rattle.std.specs.Int.{w32, w64};
ghost use Rattle.pg_cells_c.specs.DateParts.{GivesNumber, GivesParts, IsDate, IsFinite, IsOfDay, IsTime};
ghost use Rattle.pg_cells_c.specs.DateParts.{IsTimestampOf};
ghost use Rattle.pg_base.specs.Civil.{base_day};
ghost use Rattle.pg_calendar.specs.Calendar.{IsDay, day_number, micros_per_day};
ghost use Rattle.pg_cells_c.specs.Readings.{ReadsInto};
ghost use Rattle.pg_types.specs.Faults.{Answers, NeverMemory};

use crate::store::store;
use pg_base::epoch::{POSTGRES_EPOCH_DAY, POSTGRES_EPOCH_SECS};
use pg_calendar::{Civil, Clock, DateTime, micros_since};
use pg_types::fault::Fault;

/// The number of microseconds of a day.
const DAY: i64 = 86_400_000_000;

/// A day. The year 0 is the one before year 1: PostgreSQL writes it as 1 BC.
#[derive(Clone, Copy)]
#[repr(C)]
pub struct DateParts {
    pub year: i64,
    /// From 1 to 12.
    pub month: u32,
    /// From 1 to 31.
    pub day: u32,
}

/// A time of day.
#[derive(Clone, Copy)]
#[repr(C)]
pub struct TimeParts {
    pub hour: u32,
    pub minute: u32,
    pub second: u32,
    pub microsecond: u32,
}

/// A day and a time of day.
#[derive(Clone, Copy)]
#[repr(C)]
pub struct TimestampParts {
    pub date: DateParts,
    pub time: TimeParts,
}

/// Returns the day that is `days` days after 2000-01-01. An infinity is refused.
#[inline(always)]
fn date_parts(days: i32) -> Result<DateParts, Fault>
    ensures outcome { Answers (GivesParts (IsFinite w32) IsDate days) result }
    ensures never_memory { NeverMemory result }
{
    if days == i32::MIN || days == i32::MAX {
        return Err(Fault::Decode);
    }
    let Civil { year, month, day } = Civil::from_day(
        i64::from(days) + i64::from(POSTGRES_EPOCH_DAY),
    );
    Ok(DateParts { year, month, day })
}

/// Returns the time of day that is `microseconds` microseconds after midnight. Times are from
/// 00:00:00 to 24:00:00, both included; others are refused.
#[inline(always)]
fn time_parts(microseconds: i64) -> Result<TimeParts, Fault>
    ensures outcome { Answers (GivesParts IsOfDay IsTime microseconds) result }
    ensures never_memory { NeverMemory result }
{
    if microseconds < 0 || microseconds > DAY {
        return Err(Fault::Decode);
    }
    let seconds = (microseconds / 1_000_000) as u32;
    let clock = Clock::new(seconds, (microseconds % 1_000_000) as u32);
    Ok(TimeParts {
        hour: clock.hour,
        minute: clock.minute,
        second: clock.second,
        microsecond: clock.micros,
    })
}

/// Returns the day and the time of day that are `microseconds` microseconds after 2000-01-01
/// 00:00:00.
#[inline(always)]
fn finite_parts(microseconds: i64) -> TimestampParts
    ensures { IsTimestampOf result microseconds }
{
    let seconds = microseconds.div_euclid(1_000_000) + POSTGRES_EPOCH_SECS;
    let fraction = microseconds.rem_euclid(1_000_000) as u32;
    let DateTime { date, clock } = DateTime::new(seconds, fraction);
    let Civil { year, month, day } = date;
    TimestampParts {
        date: DateParts { year, month, day },
        time: TimeParts {
            hour: clock.hour,
            minute: clock.minute,
            second: clock.second,
            microsecond: clock.micros,
        },
    }
}

/// Returns the day and the time of day that are `microseconds` microseconds after 2000-01-01
/// 00:00:00. An infinity is refused.
#[inline(always)]
fn timestamp_parts(microseconds: i64) -> Result<TimestampParts, Fault>
    ensures outcome { Answers (GivesParts (IsFinite w64) IsTimestampOf microseconds) result }
    ensures never_memory { NeverMemory result }
{
    if microseconds == i64::MAX || microseconds == i64::MIN {
        return Err(Fault::Decode);
    }
    Ok(finite_parts(microseconds))
}

/// Splits a DATE into its parts.
#[unsafe(no_mangle)]
pub extern "C" fn pgc_date_parts(days: i32, parts: &mut DateParts) -> u32
    ensures { ReadsInto (GivesParts (IsFinite w32) IsDate days) parts.old parts.new result }
{
    store(date_parts(days), parts)
}

/// Splits a TIME into its parts.
#[unsafe(no_mangle)]
pub extern "C" fn pgc_time_parts(microseconds: i64, parts: &mut TimeParts) -> u32
    ensures { ReadsInto (GivesParts IsOfDay IsTime microseconds) parts.old parts.new result }
{
    store(time_parts(microseconds), parts)
}

/// Splits a TIMESTAMP or TIMESTAMPTZ into its parts.
#[unsafe(no_mangle)]
pub extern "C" fn pgc_timestamp_parts(microseconds: i64, parts: &mut TimestampParts) -> u32
    ensures { ReadsInto (GivesParts (IsFinite w64) IsTimestampOf microseconds) parts.old parts.new result }
{
    store(timestamp_parts(microseconds), parts)
}

/// Returns the number of days from 1970-01-01 to the day. It is `None` if there is no such day, or
/// the number does not fit in an `i64`.
#[inline(always)]
fn day_of(date: &DateParts) -> Option<i64>
    ensures { MatchOption result (IsDay date.now.year date.now.month date.now.day
        → ¬ (FitsSigned w64 (day_number date.now.year date.now.month date.now.day)))
        (λ n. IsDay date.now.year date.now.month date.now.day
        × (n ≡ day_number date.now.year date.now.month date.now.day)) }
{
    let DateParts { year, month, day } = *date;
    Civil { year, month, day }.to_day()
}

/// Returns the number of days from 2000-01-01 to a day, which is given as days from 1970-01-01. It
/// is `None` if the number does not fit in an `i32`.
#[inline(always)]
fn days_from_epoch(day: i64) -> Option<i32>
    ensures { MatchOption result (¬ (FitsSigned w32 (day -ℤ base_day))) (λ n. n ≡ day -ℤ base_day) }
{
    i32::try_from(i128::from(day) - i128::from(POSTGRES_EPOCH_DAY)).ok()
}

/// Returns the same number, or `None` if it is not that of a finite DATE.
#[inline(always)]
fn finite_days(day: i64) -> Option<i32>
    ensures { MatchOption result ((z : ℤ) → IsFinite w32 z → z ≡ day -ℤ base_day → ⊥)
        (λ n. IsFinite w32 n × (n ≡ day -ℤ base_day)) }
{
    let days = days_from_epoch(day)?;
    if days == i32::MAX || days == i32::MIN {
        return None;
    }
    Some(days)
}

/// Returns the number of days from 2000-01-01 to the day.
#[inline(always)]
fn days_of(date: &DateParts) -> Result<i32, Fault>
    ensures outcome { Answers (GivesNumber (IsFinite w32) IsDate date.now) result }
    ensures never_memory { NeverMemory result }
{
    let Some(day) = day_of(date) else {
        return Err(Fault::Transmit);
    };
    match finite_days(day) {
        Some(days) => Ok(days),
        None => Err(Fault::Transmit),
    }
}

/// Makes the DATE of a day.
#[unsafe(no_mangle)]
pub extern "C" fn pgc_date_of_parts(parts: &DateParts, days: &mut i32) -> u32
    ensures { ReadsInto (GivesNumber (IsFinite w32) IsDate parts.now) days.old days.new result }
{
    store(days_of(parts), days)
}

/// Returns the number of microseconds from midnight to the time of day, or `None` if there is no
/// such time.
#[inline(always)]
fn micros_of(time: &TimeParts) -> Option<i64>
    ensures { MatchOption result ((z : ℤ) → IsOfDay z → IsTime time.now z → ⊥)
        (λ n. IsOfDay n × IsTime time.now n) }
{
    let TimeParts {
        hour,
        minute,
        second,
        microsecond,
    } = *time;
    if hour > 24 || minute > 59 || second > 59 || microsecond > 999_999 {
        return None;
    }
    let seconds = (hour * 60 + minute) * 60 + second;
    let micros = i64::from(seconds) * 1_000_000 + i64::from(microsecond);
    if micros > DAY {
        return None;
    }
    Some(micros)
}

/// Returns the number of microseconds from midnight to the time of day.
#[inline(always)]
fn time_micros(time: &TimeParts) -> Result<i64, Fault>
    ensures outcome { Answers (GivesNumber IsOfDay IsTime time.now) result }
    ensures never_memory { NeverMemory result }
{
    match micros_of(time) {
        Some(micros) => Ok(micros),
        None => Err(Fault::Transmit),
    }
}

/// Makes the TIME of a time of day.
#[unsafe(no_mangle)]
pub extern "C" fn pgc_time_of_parts(parts: &TimeParts, microseconds: &mut i64) -> u32
    ensures { ReadsInto (GivesNumber IsOfDay IsTime parts.now) microseconds.old microseconds.new result }
{
    store(time_micros(parts), microseconds)
}

/// Returns the number of microseconds from 2000-01-01 00:00:00 to `time` microseconds after
/// midnight of a day, which is given as days from 1970-01-01. It is `None` if the number is not that
/// of a finite TIMESTAMP.
#[inline(always)]
fn finite_micros(day: i64, time: i64) -> Option<i64>
    ensures { MatchOption result
        ((z : ℤ) → IsFinite w64 z → z ≡ (day -ℤ base_day) *ℤ micros_per_day +ℤ time → ⊥)
        (λ n. IsFinite w64 n × (n ≡ (day -ℤ base_day) *ℤ micros_per_day +ℤ time)) }
{
    let micros = micros_since(i64::from(POSTGRES_EPOCH_DAY), day, time)?;
    if micros == i64::MAX || micros == i64::MIN {
        return None;
    }
    Some(micros)
}

/// Returns the number of microseconds from 2000-01-01 00:00:00 to the timestamp.
#[inline(always)]
fn timestamp_micros(parts: &TimestampParts) -> Result<i64, Fault>
    ensures outcome { Answers (GivesNumber (IsFinite w64) IsTimestampOf parts.now) result }
    ensures never_memory { NeverMemory result }
{
    let Some(day) = day_of(&parts.date) else {
        return Err(Fault::Transmit);
    };
    let Some(time) = micros_of(&parts.time) else {
        return Err(Fault::Transmit);
    };
    // At 24:00:00 the next day begins.
    if time == DAY {
        return Err(Fault::Transmit);
    }
    match finite_micros(day, time) {
        Some(micros) => Ok(micros),
        None => Err(Fault::Transmit),
    }
}

/// Makes the TIMESTAMP or TIMESTAMPTZ of a day and a time of day.
#[unsafe(no_mangle)]
pub extern "C" fn pgc_timestamp_of_parts(parts: &TimestampParts, microseconds: &mut i64) -> u32
    ensures { ReadsInto (GivesNumber (IsFinite w64) IsTimestampOf parts.now)
        microseconds.old microseconds.new result }
{
    store(timestamp_micros(parts), microseconds)
}
