//! The text of an interval.
ghost use Rattle.std.specs.Prelude.{◌≡◌, ◌≤◌, ◌^◌, Some, int_div, int_rem, pos};
ghost use Rattle.std.specs.Fmt.{WritesOnOk};
ghost use Rattle.pg_base.specs.IntervalTexts.{after_part, count_text, hours_text, interval_text, last_text, part_text};
ghost use Rattle.pg_base.specs.IntervalTexts.{parts_text, time_text, sign_text};

use super::Interval;
use pg_calendar::{Clock, write_clock};
use std::fmt;

/// Writes the interval like `1 year 2 mons -3 days +04:05:06.5` (`interval_out`, with IntervalStyle
/// `postgres`). Parts that are 0 are left out; an interval without parts is `00:00:00`. Each part
/// has its own sign, and a positive part after a negative one has a `+`.
impl fmt::Display for Interval {
    ghost output = { λ i. Some (interval_text i) };

    fn fmt<W: fmt::Write>(&self, f: &mut fmt::Formatter<W>) -> fmt::Result {
        write_parts(self.months, self.days, self.microseconds, f)
    }
}

/// Writes the years, the months, the days and the time.
fn write_parts<W: fmt::Write>(
    all_months: i32,
    days: i32,
    micros: i64,
    f: &mut fmt::Formatter<W>,
) -> fmt::Result
    ensures { WritesOnOk W.write_str_gives f.old result (parts_text all_months days micros) f.new }
{
    let years = whole_years(all_months);
    let months = months_of_year(all_months);
    let after_years = after_part(0, years);
    let after_months = after_part(after_years, months);
    write_part(0, years, "year", f)?;
    write_part(after_years, months, "mon", f)?;
    write_part(after_months, days, "day", f)?;
    write_last(after_part(after_months, days), micros, f)
}

/// Returns the part before the next one: this one, unless it is 0 and so left out. 0 stands for no
/// part.
fn after_part(before: i32, number: i32) -> i32
    ensures { result ≡ after_part before number }
{
    if number == 0 { before } else { number }
}

/// Returns the whole years in a number of months.
fn whole_years(months: i32) -> i32
    ensures { result ≡ int_div months (pos 12) }
{
    months / 12
}

/// Returns the months that remain after the whole years.
fn months_of_year(months: i32) -> i32
    ensures { result ≡ int_rem months (pos 12) }
{
    months % 12
}

/// Writes the number and its unit, unless the number is 0.
fn write_part<W: fmt::Write>(
    before: i32,
    number: i32,
    unit: &str,
    f: &mut fmt::Formatter<W>,
) -> fmt::Result
    ensures { WritesOnOk W.write_str_gives f.old result (part_text before number unit.now) f.new }
{
    if number == 0 {
        return Ok(());
    }
    write_sign(before, number < 0, f)?;
    write_count(number, unit, f)
}

/// Writes the number without its sign, and its unit.
fn write_count<W: fmt::Write>(number: i32, unit: &str, f: &mut fmt::Formatter<W>) -> fmt::Result
    ensures { WritesOnOk W.write_str_gives f.old result (count_text number unit.now) f.new }
{
    let count = number.unsigned_abs();
    let plural = if number == 1 { "" } else { "s" };
    write!(f, "{count} {unit}{plural}")
}

/// Writes the space after the part before, and the sign.
fn write_sign<W: fmt::Write>(
    before: i32,
    is_negative: bool,
    f: &mut fmt::Formatter<W>,
) -> fmt::Result
    ensures { WritesOnOk W.write_str_gives f.old result (sign_text before is_negative) f.new }
{
    f.write_str(if before == 0 { "" } else { " " })?;
    f.write_str(if is_negative {
        "-"
    } else if before < 0 {
        "+"
    } else {
        ""
    })
}

/// Writes the time, unless it is 0 and follows another part.
fn write_last<W: fmt::Write>(before: i32, micros: i64, f: &mut fmt::Formatter<W>) -> fmt::Result
    ensures { WritesOnOk W.write_str_gives f.old result (last_text before micros) f.new }
{
    if before != 0 && micros == 0 {
        return Ok(());
    }
    write_time(before, micros, f)
}

/// Writes the sign and the time.
fn write_time<W: fmt::Write>(before: i32, micros: i64, f: &mut fmt::Formatter<W>) -> fmt::Result
    ensures { WritesOnOk W.write_str_gives f.old result (time_text before micros) f.new }
{
    write_sign(before, micros < 0, f)?;
    write_micros(micros.unsigned_abs(), f)
}

/// Writes the hours, minutes and seconds.
fn write_micros<W: fmt::Write>(micros: u64, f: &mut fmt::Formatter<W>) -> fmt::Result
    requires { micros ≤ 2 ^ 63 }
    ensures { WritesOnOk W.write_str_gives f.old result (hours_text micros) f.new }
{
    let seconds = micros / 1_000_000;
    let clock = Clock {
        hour: (seconds / 3_600) as u32,
        minute: (seconds / 60 % 60) as u32,
        second: (seconds % 60) as u32,
        micros: (micros % 1_000_000) as u32,
    };
    write_clock(clock, f)
}
