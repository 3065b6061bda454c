//! Laws of NUMERIC, each as a function whose contract states it.
ghost use Rattle.std.specs.Prelude.{◌≡◌, ℕ, IfOk, List, Ok, true};
ghost use Rattle.std.specs.Ordering.{int_cmp};
ghost use Rattle.pg_types.specs.Faults.{Answers, Outcome};
ghost use Rattle.pg_numbers.specs.Numeric.{signed_units};
ghost use Rattle.pg_numbers.specs.NumericCells.{CountsAsStated, is_numeric, stated};
ghost use Rattle.pg_numbers.specs.NumericTexts.{ParsesNumeric, numeric_text};

use super::cell::numeric_from_sql;
use super::{Decimal, Numeric};
use postgres_types::Fault;
use std::alloc::Global;
use std::cmp::Ordering;

/// Reads a cell of NUMERIC. A number has the scale of its cell. Its value is that of the digits of
/// the cell, truncated toward zero to that scale. The zeros that reading removes do not change it.
pub fn read_number(alloc: Global, raw: &[u8]) -> Result<Numeric, Fault>
    ensures { IfOk result (CountsAsStated (stated raw.now)) }
{
    numeric_from_sql(alloc, raw)
}

/// Numbers compare as their values do: as the integers that they are in units of one scale, which is
/// the sum of theirs.
pub fn compares_by_value(a: &Decimal, b: &Decimal) -> Ordering
    ensures { result ≡ int_cmp (signed_units a.now b.now.scale) (signed_units b.now a.now.scale) }
{
    // Their digits are those of numbers, whose order this is.
    let _ = a.digits();
    let _ = b.digits();
    a.cmp(b)
}

/// The text of a value is parsed as that value, with its scale, unless memory runs out.
pub fn numeric_from_text(alloc: Global, v: &Numeric) -> Result<Numeric, Fault>
    ensures { Answers (λ outcome. outcome ≡ Ok v.now) result }
{
    has_number(v);
    let text = format!(in alloc; "{v}")?;
    Numeric::parse(alloc, text.as_str())
}

/// The parts of a value are those of a number.
fn has_number(v: &Numeric)
    ensures { is_numeric v.now ≡ true }
{
    if let Numeric::Finite(number) = v {
        let _ = number.digits();
    }
}

/// Each value is read of its text, with its scale, and a text has one value or one fault.
pub fn numeric_is_read_back()
    ensures reads { (v : Numeric) → is_numeric v ≡ true → ParsesNumeric (numeric_text v) (Ok v) }
    ensures once { (text : List ℕ) (v w : Outcome Numeric) → ParsesNumeric text v
        → ParsesNumeric text w → w ≡ v }
{}
