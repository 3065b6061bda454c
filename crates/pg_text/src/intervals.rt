//! The texts of intervals.
ghost use Rattle.std.specs.Prelude.{◌≡◌, ◌++◌, ◌+ℤ◌, ◌*ℤ◌, pos, IfSome, IsSome, MatchOption, None, Some};
ghost use Rattle.pg_base.specs.IntervalTexts.{interval_text};
ghost use Rattle.pg_text.specs.Intervals.{IsSumOf, SaysInterval, SetsField, TakesField, TakesMinutes};
ghost use Rattle.pg_text.specs.Intervals.{TakesPart, TakesSign, field_name, signed};
ghost use Rattle.pg_text.specs.Texts.{Shows};

use crate::scanner::Scanner;
use crate::shown::push_shown;
use crate::{FromText, ToText, no_value};
use postgres_types::{Fault, Interval};
use std::alloc::{AllocError, Global};

/// Writes the interval like `1 year 2 mons -3 days +04:05:06.5` (`interval_out`).
impl ToText for Interval {
    ghost shows = { Shows interval_text };

    fn to_text(&self, alloc: Global, out: &mut Vec<u8>) -> Result<(), AllocError> {
        push_shown(alloc, self, out)
    }
}

/// The fields that have a name.
#[derive(Debug, Clone, Copy)]
enum Field {
    Year,
    Month,
    Day,
}

/// The parts of a text: of each field at most one.
#[derive(Debug, Clone, Copy)]
struct Parts {
    years: Option<i32>,
    months: Option<i32>,
    days: Option<i32>,
    micros: Option<i64>,
}

impl Parts {
    /// Takes a part of the text; `None` if there is none, or if the field has a part already.
    fn take_part(&mut self, scanner: &mut Scanner<'_>) -> Option<()>
        ensures { IfSome result (λ _. TakesPart self.old scanner.old.rest.now self.new scanner.new.rest.now) }
    {
        let is_negative = take_sign(scanner);
        let number = scanner.number()?;
        if scanner.take(b":") {
            let time = take_minutes(number, scanner)?;
            return set(&mut self.micros, signed(is_negative, time)?);
        }
        let field = take_field(scanner)?;
        let count = i32::try_from(signed(is_negative, number)?).ok()?;
        self.set_field(field, count)
    }

    /// Sets the count of a field; `None` if it has one already.
    fn set_field(&mut self, field: Field, count: i32) -> Option<()>
        ensures { IfSome result (λ _. SetsField self.old field count self.new) }
    {
        match field {
            Field::Year => set(&mut self.years, count),
            Field::Month => set(&mut self.months, count),
            Field::Day => set(&mut self.days, count),
        }
    }

    /// Returns the interval, or `None` if it has too many months.
    fn interval(self) -> Option<Interval>
        ensures { IfSome result (IsSumOf self) }
    {
        Some(Interval {
            microseconds: self.micros.unwrap_or(0),
            days: self.days.unwrap_or(0),
            months: total_months(self.years.unwrap_or(0), self.months.unwrap_or(0))?,
        })
    }
}

/// Returns the months of both, or `None` if they do not fit in an `i32`.
fn total_months(years: i32, months: i32) -> Option<i32>
    ensures { IfSome result (λ total. total ≡ years *ℤ pos 12 +ℤ months) }
{
    i32::try_from(i64::from(years) * 12 + i64::from(months)).ok()
}

/// Sets a part of a text; `None` if it is set already.
fn set<T: Copy>(part: &mut Option<T>, value: T) -> Option<()>
    ensures { MatchOption result (IsSome part.old × (part.new ≡ part.old))
        (λ _. (part.old ≡ None) × (part.new ≡ Some value)) }
{
    if part.is_some() {
        return None;
    }
    *part = Some(value);
    Some(())
}

/// Returns the number with its sign, or `None` if it does not fit in an `i64`.
fn signed(is_negative: bool, number: u64) -> Option<i64>
    ensures { IfSome result (λ z. z ≡ signed is_negative number) }
{
    let number = i128::from(number);
    i64::try_from(if is_negative { -number } else { number }).ok()
}

/// Takes a sign, if there is one. Returns whether it is a minus.
fn take_sign(scanner: &mut Scanner<'_>) -> bool
    ensures { TakesSign scanner.old.rest.now result scanner.new.rest.now }
{
    if scanner.take(b"-") {
        return true;
    }
    let _ = scanner.take(b"+");
    false
}

/// Takes a space and the name of a field, in the singular or the plural.
fn take_field(scanner: &mut Scanner<'_>) -> Option<Field>
    ensures { IfSome result (λ field. TakesField scanner.old.rest.now field scanner.new.rest.now) }
{
    scanner.expect(b" ")?;
    let field = take_name(scanner)?;
    let _ = scanner.take(b"s");
    Some(field)
}

/// Takes the name of a field, in the singular.
fn take_name(scanner: &mut Scanner<'_>) -> Option<Field>
    ensures { IfSome result (λ field. scanner.old.rest.now ≡ field_name field ++ scanner.new.rest.now) }
{
    if scanner.take(b"year") {
        return Some(Field::Year);
    }
    if scanner.take(b"mon") {
        return Some(Field::Month);
    }
    scanner.expect(b"day")?;
    Some(Field::Day)
}

/// Takes the minutes and seconds after the hours. Returns the microseconds of the time; `None` if
/// they do not fit in a `u64`.
fn take_minutes(hours: u64, scanner: &mut Scanner<'_>) -> Option<u64>
    ensures { IfSome result (λ micros. TakesMinutes scanner.old.rest.now hours micros scanner.new.rest.now) }
{
    let minutes = scanner.number_u32()?;
    scanner.expect(b":")?;
    let seconds = scanner.number_u32()?;
    let micros = scanner.fraction()?;
    if minutes > 59 || seconds > 59 {
        return None;
    }
    let seconds = u64::from(minutes * 60 + seconds);
    let seconds = hours.checked_mul(3_600)?.checked_add(seconds)?;
    let time = seconds.checked_mul(1_000_000)?;
    let time = time.checked_add(u64::from(micros))?;
    Some(time)
}

/// Parses an interval; `None` if the text is not one.
fn parse(text: &str) -> Option<Interval>
    ensures { IfSome result (SaysInterval text.now) }
{
    let mut scanner = Scanner::new(text);
    let mut parts = Parts {
        years: None,
        months: None,
        days: None,
        micros: None,
    };
    // Years, months, days and a time are four parts at most.
    for count in 0..4u32 {
        parts.take_part(&mut scanner)?;
        if scanner.is_done() {
            return parts.interval();
        }
        scanner.expect(b" ")?;
    }
    None
}

/// Parses years, months, days and a time, each at most once and in any order.
impl FromText for Interval {
    ghost says = { SaysInterval };

    fn from_text(_alloc: Global, text: &str) -> Result<Interval, Fault> {
        parse(text).ok_or_else(no_value)
    }
}
