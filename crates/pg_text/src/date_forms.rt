//! The parts of the texts of dates, times of day and timestamps.
ghost use Rattle.std.specs.Prelude.{◌≡◌, ◌<◌, ◌⊎◌, ◌++◌, ◌∷◌, [], IfSome, MatchBool, OnOk, pos};
ghost use Rattle.std.specs.Prelude.{◌+ℤ◌, ◌*ℤ◌, if◌then◌else◌};
ghost use Rattle.pg_text.specs.Scans.{SaysMicros, SaysUtcMicros, TakesClock, TakesDateTime, TakesDay, TakesEra};
ghost use Rattle.pg_text.specs.Scans.{TakesLaterClock, TakesMinutes, TakesOffset, TakesSeconds, TakesSigned, TakesSixtieths, TakesTime};
ghost use Rattle.pg_text.specs.Scans.{TakesTimestamp, TakesUtc, TakesWholeDay};
ghost use Rattle.pg_calendar.specs.Texts.{clock_text, day_text, era_text, seconds_text, timestamp_text, year_of_era};

use crate::digits::{push_fraction, push_padded};
use crate::scanner::Scanner;
use pg_calendar::{Civil, Clock, DateTime, two_digits, year_of_era};
use std::alloc::AllocError;

/// The digits of a year of four digits, of a month and of a day.
type DayDigits = (u8, u8, u8, u8, u8, u8, u8, u8);

/// The digits of an hour, a minute and a second.
type ClockDigits = (u8, u8, u8, u8, u8, u8);

/// Appends the date without its era. Years before year 1 are counted back from 1 BC.
#[inline(always)]
pub fn push_date(date: Civil, out: &mut Vec<u8>) -> Result<(), AllocError>
    ensures { OnOk result (out.new.items ≡ out.old.items ++ day_text date.year date.month date.day) }
{
    match day_digits(date) {
        Some((y0, y1, y2, y3, m0, m1, d0, d1)) => {
            out.extend_from_slice(&[y0, y1, y2, y3, b'-', m0, m1, b'-', d0, d1])
        }
        None => push_long_date(date, out),
    }
}

/// Returns the digits of the date, if its year has at most four; otherwise `None`.
fn day_digits(date: Civil) -> Option<DayDigits>
    ensures { IfSome result (λ d. day_text date.year date.month date.day
        ≡ d.0 ∷ d.1 ∷ d.2 ∷ d.3 ∷ 45 ∷ d.4 ∷ d.5 ∷ 45 ∷ d.6 ∷ d.7 ∷ []) }
{
    let year = u32::try_from(year_of_era(date.year)).ok()?;
    let (y0, y1) = two_digits(year / 100)?;
    let (y2, y3) = two_digits(year % 100)?;
    let (m0, m1) = two_digits(date.month)?;
    let (d0, d1) = two_digits(date.day)?;
    Some((y0, y1, y2, y3, m0, m1, d0, d1))
}

/// Appends any date without its era.
fn push_long_date(date: Civil, out: &mut Vec<u8>) -> Result<(), AllocError>
    ensures { OnOk result (out.new.items ≡ out.old.items ++ day_text date.year date.month date.day) }
{
    push_padded(year_of_era(date.year), 4, out)?;
    out.push(b'-')?;
    push_padded(u64::from(date.month), 2, out)?;
    out.push(b'-')?;
    push_padded(u64::from(date.day), 2, out)
}

/// Appends ` BC` for a year before year 1, and nothing for another.
pub fn push_era(date: Civil, out: &mut Vec<u8>) -> Result<(), AllocError>
    ensures { OnOk result (out.new.items ≡ out.old.items ++ era_text date.year) }
{
    if date.year > 0 {
        return Ok(());
    }
    out.extend_from_slice(b" BC")
}

/// Appends the time of day, with a fraction of the second if there is one.
#[inline(always)]
pub fn push_clock(clock: Clock, out: &mut Vec<u8>) -> Result<(), AllocError>
    ensures { OnOk result (out.new.items ≡ out.old.items
        ++ clock_text clock.hour clock.minute clock.second clock.micros) }
{
    match clock_digits(clock) {
        Some((h0, h1, m0, m1, s0, s1)) => {
            out.extend_from_slice(&[h0, h1, b':', m0, m1, b':', s0, s1])?;
        }
        None => push_long_clock(clock, out)?,
    }
    push_fraction(clock.micros, out)
}

/// Returns the digits of the time of day, if its hour has at most two; otherwise `None`.
fn clock_digits(clock: Clock) -> Option<ClockDigits>
    ensures { IfSome result (λ d. seconds_text clock.hour clock.minute clock.second
        ≡ d.0 ∷ d.1 ∷ 58 ∷ d.2 ∷ d.3 ∷ 58 ∷ d.4 ∷ d.5 ∷ []) }
{
    let (h0, h1) = two_digits(clock.hour)?;
    let (m0, m1) = two_digits(clock.minute)?;
    let (s0, s1) = two_digits(clock.second)?;
    Some((h0, h1, m0, m1, s0, s1))
}

/// Appends the time of day without its fraction, with any hour, as in an interval.
fn push_long_clock(clock: Clock, out: &mut Vec<u8>) -> Result<(), AllocError>
    ensures { OnOk result (out.new.items ≡ out.old.items ++ seconds_text clock.hour clock.minute clock.second) }
{
    push_padded(u64::from(clock.hour), 2, out)?;
    out.push(b':')?;
    push_padded(u64::from(clock.minute), 2, out)?;
    out.push(b':')?;
    push_padded(u64::from(clock.second), 2, out)
}

/// Appends the date, the time of day, the zone and the era.
#[inline(always)]
pub fn push_datetime(datetime: DateTime, zone: &[u8], out: &mut Vec<u8>) -> Result<(), AllocError>
    ensures { OnOk result (out.new.items ≡ out.old.items
        ++ timestamp_text datetime.date.year datetime.date.month datetime.date.day
        (clock_text datetime.clock.hour datetime.clock.minute datetime.clock.second datetime.clock.micros) zone.now) }
{
    push_seconds(datetime, out)?;
    push_fraction(datetime.clock.micros, out)?;
    out.extend_from_slice(zone)?;
    push_era(datetime.date, out)
}

/// Appends the date without its era, and the time of day without its fraction.
#[inline(always)]
fn push_seconds(datetime: DateTime, out: &mut Vec<u8>) -> Result<(), AllocError>
    ensures { OnOk result (out.new.items ≡ out.old.items
        ++ (day_text datetime.date.year datetime.date.month datetime.date.day
        ++ 32 ∷ seconds_text datetime.clock.hour datetime.clock.minute datetime.clock.second)) }
{
    match (day_digits(datetime.date), clock_digits(datetime.clock)) {
        (Some((y0, y1, y2, y3, m0, m1, d0, d1)), Some((h0, h1, n0, n1, s0, s1))) => {
            out.extend_from_slice(&[
                y0, y1, y2, y3, b'-', m0, m1, b'-', d0, d1, b' ', h0, h1, b':', n0, n1, b':', s0,
                s1,
            ])
        }
        _ => push_long_datetime(datetime, out),
    }
}

/// Appends any date without its era, and any time of day without its fraction.
fn push_long_datetime(datetime: DateTime, out: &mut Vec<u8>) -> Result<(), AllocError>
    ensures { OnOk result (out.new.items ≡ out.old.items
        ++ (day_text datetime.date.year datetime.date.month datetime.date.day
        ++ 32 ∷ seconds_text datetime.clock.hour datetime.clock.minute datetime.clock.second)) }
{
    push_date(datetime.date, out)?;
    out.push(b' ')?;
    push_long_clock(datetime.clock, out)
}

/// Takes a date without its era. The year has at least four digits, since the server reads a
/// shorter one by DateStyle; and the month at most two, since it reads three as a day of the year.
fn take_date(scanner: &mut Scanner<'_>) -> Option<Civil>
    ensures { IfSome result (λ d. TakesDay scanner.old.rest.now d.year d.month d.day scanner.new.rest.now) }
{
    let (year, year_len) = scanner.digits()?;
    scanner.expect(b"-")?;
    let (month, month_len) = scanner.digits()?;
    scanner.expect(b"-")?;
    let day = scanner.number_u32()?;
    if year == 0 || year_len < 4 || month_len > 2 {
        return None;
    }
    let year = i64::try_from(year).ok()?;
    let month = u32::try_from(month).ok()?;
    Some(Civil { year, month, day })
}

/// Takes the era at the end of the text, and returns the year of this year in that era.
fn take_era(year: i64, scanner: &mut Scanner<'_>) -> Option<i64>
    ensures { IfSome result (TakesEra scanner.old.rest.now year) }
{
    let year = if scanner.take(b" BC") {
        1i64.checked_sub(year)?
    } else {
        year
    };
    if scanner.is_done() { Some(year) } else { None }
}

/// Takes a colon, the seconds and their fraction, and returns the seconds and the microseconds;
/// both are 0 if there is no colon.
fn take_seconds(scanner: &mut Scanner<'_>) -> Option<(u32, u32)>
    ensures { IfSome result (λ s. TakesSeconds scanner.old.rest.now s.0 s.1 scanner.new.rest.now) }
{
    if !scanner.take(b":") {
        return Some((0, 0));
    }
    let second = scanner.number_u32()?;
    Some((second, scanner.fraction()?))
}

/// Takes a time of day, with seconds or without.
fn take_clock(scanner: &mut Scanner<'_>) -> Option<Clock>
    ensures { IfSome result (λ c. TakesClock scanner.old.rest.now c.hour c.minute c.second c.micros
        scanner.new.rest.now) }
{
    let hour = scanner.number_u32()?;
    scanner.expect(b":")?;
    let minute = scanner.number_u32()?;
    let (second, micros) = take_seconds(scanner)?;
    Some(Clock {
        hour,
        minute,
        second,
        micros,
    })
}

/// Takes a date without its era whose year has four digits, and whose month and day have two.
#[inline(always)]
fn take_short_date(scanner: &mut Scanner<'_>) -> Option<Civil>
    ensures { IfSome result (λ d. TakesDay scanner.old.rest.now d.year d.month d.day scanner.new.rest.now) }
{
    let century = scanner.pair()?;
    let year = century * 100 + scanner.pair()?;
    scanner.expect(b"-")?;
    let month = scanner.pair()?;
    scanner.expect(b"-")?;
    let day = scanner.pair()?;
    if year == 0 {
        return None;
    }
    let year = i64::from(year);
    Some(Civil { year, month, day })
}

/// Takes a date and a time of day as the server writes them up to the year 9999.
#[inline(always)]
fn take_short_datetime(scanner: &mut Scanner<'_>) -> Option<DateTime>
    ensures { IfSome result (λ dt. TakesDateTime scanner.old.rest.now dt.date.year dt.date.month dt.date.day
        dt.clock.hour dt.clock.minute dt.clock.second dt.clock.micros scanner.new.rest.now) }
{
    let date = take_short_date(scanner)?;
    scanner.expect(b" ")?;
    let hour = scanner.pair()?;
    scanner.expect(b":")?;
    let minute = scanner.pair()?;
    scanner.expect(b":")?;
    let second = scanner.number_u32()?;
    let micros = scanner.fraction()?;
    let clock = Clock {
        hour,
        minute,
        second,
        micros,
    };
    Some(DateTime { date, clock })
}

/// Takes a space or `T`; `None` if neither is there.
fn take_separator(scanner: &mut Scanner<'_>) -> Option<()>
    ensures { IfSome result (λ _. (scanner.old.rest.now ≡ 32 ∷ scanner.new.rest.now)
        ⊎ (scanner.old.rest.now ≡ 84 ∷ scanner.new.rest.now)) }
{
    if scanner.take(b" ") {
        return Some(());
    }
    scanner.expect(b"T")
}

/// Takes a space or `T`, and a time of day.
fn take_later_clock(scanner: &mut Scanner<'_>) -> Option<Clock>
    ensures { IfSome result (λ c. TakesLaterClock scanner.old.rest.now c.hour c.minute c.second c.micros
        scanner.new.rest.now) }
{
    take_separator(scanner)?;
    take_clock(scanner)
}

/// Takes a space or `T`, and a time of day; takes nothing if they are not there, which is midnight.
fn take_time(scanner: &mut Scanner<'_>) -> Clock
    ensures { TakesTime scanner.old.rest.now result.hour result.minute result.second result.micros
        scanner.new.rest.now }
{
    let mut rest = *scanner;
    match take_later_clock(&mut rest) {
        Some(clock) => {
            *scanner = rest;
            clock
        }
        None => Clock::new(0, 0),
    }
}

/// Takes a date and a time of day, if there is one.
#[inline(always)]
fn take_datetime(scanner: &mut Scanner<'_>) -> Option<DateTime>
    ensures { IfSome result (λ dt. TakesDateTime scanner.old.rest.now dt.date.year dt.date.month dt.date.day
        dt.clock.hour dt.clock.minute dt.clock.second dt.clock.micros scanner.new.rest.now) }
{
    let mut short = *scanner;
    if let Some(datetime) = take_short_datetime(&mut short) {
        *scanner = short;
        return Some(datetime);
    }
    let date = take_date(scanner)?;
    let clock = take_time(scanner);
    Some(DateTime { date, clock })
}

/// Parses a date; `None` if the text is not one.
pub fn parse_date(text: &str) -> Option<Civil>
    ensures { IfSome result (λ d. TakesWholeDay text.now d.year d.month d.day) }
{
    let mut scanner = Scanner::new(text);
    let date = take_date(&mut scanner)?;
    let year = take_era(date.year, &mut scanner)?;
    Some(Civil { year, ..date })
}

/// Parses a time of day; `None` if the text is not one.
pub fn parse_clock(text: &str) -> Option<Clock>
    ensures { IfSome result (λ c. TakesClock text.now c.hour c.minute c.second c.micros []) }
{
    let mut scanner = Scanner::new(text);
    let clock = take_clock(&mut scanner)?;
    if scanner.is_done() { Some(clock) } else { None }
}

/// Parses a date and a time of day; `None` if the text is not one.
#[inline(always)]
pub fn parse_datetime(text: &str) -> Option<DateTime>
    ensures { IfSome result (λ dt. TakesTimestamp text.now dt.date.year dt.date.month dt.date.day
        dt.clock.hour dt.clock.minute dt.clock.second dt.clock.micros) }
{
    let mut scanner = Scanner::new(text);
    let datetime = take_datetime(&mut scanner)?;
    let year = take_era(datetime.date.year, &mut scanner)?;
    let date = Civil {
        year,
        ..datetime.date
    };
    Some(DateTime { date, ..datetime })
}

/// Parses a timestamp. Returns the microseconds to it from midnight of day `day`, which is counted
/// in days from 1970-01-01; `None` if the text is not a timestamp, or if they do not fit in an
/// `i64`.
#[inline(always)]
pub fn parse_micros(text: &str, day: i64) -> Option<i64>
    ensures { IfSome result (λ micros. SaysMicros text.now (micros +ℤ day *ℤ pos 86_400_000_000)) }
{
    parse_datetime(text)?.micros_from(day)
}

/// Takes a colon and two digits of a number below 60, if there is a colon; otherwise the number is
/// 0. Returns `None` if the colon is followed by something else.
#[inline(always)]
fn take_sixtieths(scanner: &mut Scanner<'_>) -> Option<u32>
    ensures number { IfSome result (λ n. TakesSixtieths scanner.old.rest.now n scanner.new.rest.now) }
    ensures bound { IfSome result (λ n. n < 60) }
{
    if !scanner.take(b":") {
        return Some(0);
    }
    let number = scanner.pair()?;
    if number < 60 { Some(number) } else { None }
}

/// Takes a sign, and returns whether it is a minus.
#[inline(always)]
fn take_sign(scanner: &mut Scanner<'_>) -> Option<bool>
    ensures { IfSome result (λ is_minus. scanner.old.rest.now
        ≡ (if is_minus then 45 else 43) ∷ scanner.new.rest.now) }
{
    if scanner.take(b"+") {
        return Some(false);
    }
    scanner.expect(b"-")?;
    Some(true)
}

/// Takes the minutes and seconds after the hours of an offset, if there are any: with colons before
/// them, or two digits of minutes without one.
#[inline(always)]
fn take_minutes(scanner: &mut Scanner<'_>) -> Option<(u32, u32)>
    ensures taken { IfSome result (λ m. TakesMinutes scanner.old.rest.now m.0 m.1 scanner.new.rest.now) }
    ensures bound { IfSome result (λ m. (m.0 < 60) × (m.1 < 60)) }
{
    let mut rest = *scanner;
    if let Some(minutes) = rest.pair() {
        *scanner = rest;
        return if minutes < 60 {
            Some((minutes, 0))
        } else {
            None
        };
    }
    let minutes = take_sixtieths(scanner)?;
    Some((minutes, take_sixtieths(scanner)?))
}

/// Takes a sign, the hours and the minutes and seconds of an offset, and returns its seconds.
#[inline(always)]
fn take_signed(scanner: &mut Scanner<'_>) -> Option<i32>
    ensures { IfSome result (λ seconds. TakesSigned scanner.old.rest.now seconds scanner.new.rest.now) }
{
    let is_minus = take_sign(scanner)?;
    let hours = scanner.pair()?;
    if hours > 15 {
        return None;
    }
    let (minutes, seconds) = take_minutes(scanner)?;
    let offset = (hours * 3_600 + minutes * 60 + seconds) as i32;
    Some(if is_minus { -offset } else { offset })
}

/// Takes `Z`, `z` or `UTC`, and returns whether it is there.
#[inline(always)]
fn take_utc(scanner: &mut Scanner<'_>) -> bool
    ensures { MatchBool result (TakesUtc scanner.old.rest.now scanner.new.rest.now)
        (scanner.new.rest.now ≡ scanner.old.rest.now) }
{
    scanner.take(b"Z") || scanner.take(b"z") || scanner.take(b"UTC")
}

/// Takes an offset from UTC, such as `+05:30`, `-03` or `Z`, with a space before it or none, and
/// returns its seconds, which are positive east of Greenwich.
#[inline(always)]
fn take_offset(scanner: &mut Scanner<'_>) -> Option<i32>
    ensures { IfSome result (λ seconds. TakesOffset scanner.old.rest.now seconds scanner.new.rest.now) }
{
    skip_space(scanner);
    if take_utc(scanner) {
        return Some(0);
    }
    take_signed(scanner)
}

/// Takes a space, if there is one.
#[inline(always)]
fn skip_space(scanner: &mut Scanner<'_>)
    ensures { (scanner.old.rest.now ≡ scanner.new.rest.now) ⊎ (scanner.old.rest.now ≡ 32 ∷ scanner.new.rest.now) }
{
    let _ = scanner.take(b" ");
}

/// Parses a date and a time of day with an offset from UTC, and returns the microseconds from
/// 1970-01-01 00:00:00 UTC; `None` if the text is not one, or if they do not fit in an `i64`.
#[inline(always)]
pub fn parse_instant(text: &str) -> Option<i64>
    ensures { IfSome result (SaysUtcMicros text.now) }
{
    let mut scanner = Scanner::new(text);
    let datetime = take_datetime(&mut scanner)?;
    let offset = take_offset(&mut scanner)?;
    let year = take_era(datetime.date.year, &mut scanner)?;
    let date = Civil {
        year,
        ..datetime.date
    };
    let micros = DateTime { date, ..datetime }.micros_from(0)?;
    micros.checked_sub(i64::from(offset) * 1_000_000)
}
