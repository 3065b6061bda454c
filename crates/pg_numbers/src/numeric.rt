//! NUMERIC: decimal numbers, with NaN and the infinities.
ghost use Rattle.std.specs.Prelude.{◌≡◌, ◌≤◌, drop, length, true, IfOk, IfErr, Some};
ghost use Rattle.std.specs.Prelude.{negsuc, pos, ◌<◌, ◌≤ℤ◌};
ghost use Rattle.pg_types.specs.Faults.{Answers, refusal_of};
ghost use Rattle.pg_types.specs.declared.fault.Fault.TheVariants.{Memory};
ghost use Rattle.pg_numbers.specs.Numeric.{MakesNumber, invalid_digit, invalid_scale, units};
ghost use Rattle.pg_numbers.specs.Numeric.{are_digits, base, canonical, from_digits, from_first, hidden, is_number};
ghost use Rattle.pg_numbers.specs.Numeric.{first_is_not_zero, leading_zeros, max_digits, max_scale, parts, shown};
ghost use Rattle.pg_numbers.specs.Numeric.{without_decimals, without_trailing};

mod cell;
mod conversions;
mod exponent;
mod integers;
pub mod laws;
mod order;
mod text;

use postgres_types::Fault;
use std::alloc::Global;
use std::marker::Model;

/// The base of the digits.
const BASE: u16 = 10_000;

/// The greatest scale of a number.
pub const MAX_SCALE: u16 = 16_383;

/// The greatest number of digits that a cell can have.
const MAX_DIGITS: usize = 65_535;

/// A value of NUMERIC.
#[derive(Debug, Drop)]
pub enum Numeric {
    /// Not a number. It equals itself, and is greater than every other value.
    NaN,
    /// `Infinity`, which is greater than every number.
    Infinity,
    /// `-Infinity`, which is less than every number.
    NegativeInfinity,
    /// A finite number.
    Finite(Decimal),
}

/// A decimal number, with a scale: the number of digits after the decimal point.
#[derive(Debug, Drop)]
pub struct Decimal {
    negative: bool,
    weight: i16,
    scale: u16,
    digits: Vec<u16>,
}

/// In contracts, a value is its parts.
impl Model for Decimal {
    ghost use Rattle.std.specs.Prelude.{◌≡◌, true};
    ghost use Rattle.pg_numbers.specs.Numeric.{Parts, is_number, parts};

    ghost Value = { Parts };

    ghost view = { λ d. parts d.negative d.weight d.scale d.digits.items };

    ghost invariant = { λ d. is_number (parts d.negative d.weight d.scale d.digits.items) ≡ true };
}

impl Decimal {
    /// Creates the number of a sign, a weight, a scale and base-10,000 digits. A digit is worth its
    /// value times 10,000 to a power, which is `weight` for the first digit and one less for each
    /// further one. `scale` is the number of decimal digits after the point. Without digits the
    /// number is 0.
    ///
    /// A scale greater than 16,383 is refused with `User`, then more than 65,535 digits with
    /// `Transmit`, and then a digit greater than 9,999 with `User`. As in a cell, decimal digits
    /// that exceed the scale are truncated, and zeros before the first digit and after the last one
    /// are removed.
    pub fn new(
        alloc: Global,
        negative: bool,
        weight: i16,
        scale: u16,
        digits: &[u16],
    ) -> Result<Decimal, Fault>
        ensures { Answers (MakesNumber (parts negative weight scale digits.now)) result }
    {
        if scale > MAX_SCALE {
            return Err(invalid_scale());
        }
        if digits.len() > MAX_DIGITS {
            return Err(Fault::Transmit);
        }
        if !are_digits(digits) {
            return Err(invalid_digit());
        }
        let digits = Vec::from_slice(alloc, digits)?;
        Ok(Decimal::from_parts(negative, weight, scale, digits))
    }

    /// Returns the number of these digits, of which the first has that weight. Decimal digits that
    /// exceed the scale are truncated.
    fn from_parts(negative: bool, weight: i16, scale: u16, mut digits: Vec<u16>) -> Decimal
        requires digits { are_digits digits.items ≡ true }
        requires short { length digits.items ≤ max_digits }
        requires scale { scale ≤ max_scale }
        ensures { result ≡ canonical (parts negative weight scale digits.items) }
    {
        let zeros = trim_start(&mut digits);
        Decimal::from_digits(negative, i32::from(weight) - zeros as i32, scale, digits)
    }

    /// Returns the number of these digits, of which the first is not 0. Decimal digits that exceed
    /// the scale are truncated.
    fn from_digits(negative: bool, weight: i32, scale: u16, mut digits: Vec<u16>) -> Decimal
        requires digits { are_digits digits.items ≡ true }
        requires short { length digits.items ≤ max_digits }
        requires first { first_is_not_zero digits.items ≡ true }
        requires low { negsuc 100000 ≤ℤ weight }
        requires high { weight ≤ℤ pos 32767 }
        requires scale { scale ≤ max_scale }
        ensures { result ≡ from_digits negative weight scale (without_trailing (shown weight scale digits.items)) }
    {
        hide(weight, scale, digits.as_mut_slice());
        trim_end(&mut digits);
        if digits.is_empty() {
            Decimal {
                negative: false,
                weight: 0,
                scale,
                digits,
            }
        } else {
            Decimal {
                negative,
                weight: weight as i16,
                scale,
                digits,
            }
        }
    }

    /// Whether the number is less than 0.
    pub fn is_negative(&self) -> bool
        ensures { result ≡ self.now.negative }
    {
        self.negative
    }

    /// Returns the weight: the power of 10,000 that the first digit is multiplied by.
    pub fn weight(&self) -> i16
        ensures { result ≡ self.now.weight }
    {
        self.weight
    }

    /// Returns the scale: the number of decimal digits after the point.
    pub fn scale(&self) -> u16
        ensures { result ≡ self.now.scale }
    {
        self.scale
    }

    /// Returns the base-10,000 digits. Neither the first nor the last is 0. The number 0 has none.
    pub fn digits(&self) -> &[u16]
        ensures digits { result.now ≡ self.now.digits }
        ensures number { is_number self.now ≡ true }
    {
        self.digits.as_slice()
    }
}

/// Returns the fault of a scale greater than 16,383.
fn invalid_scale() -> Fault
    ensures { refusal_of result ≡ Some invalid_scale }
{
    Fault::user("invalid scale in external numeric value")
}

/// Returns the fault of a digit greater than 9,999.
fn invalid_digit() -> Fault
    ensures { refusal_of result ≡ Some invalid_digit }
{
    Fault::user("invalid digit in external numeric value")
}

/// Whether each is a base-10,000 digit.
fn are_digits(digits: &[u16]) -> bool
    ensures { result ≡ are_digits digits.now }
{
    digits.iter().all(|digit| *digit < BASE)
}

/// Removes the zeros at the front and returns how many there were.
fn trim_start(digits: &mut Vec<u16>) -> usize
    ensures zeros { result ≡ leading_zeros digits.old.items }
    ensures digits { digits.new.items ≡ drop result digits.old.items }
{
    let zeros = digits.iter().take_while(|digit| **digit == 0).count();
    let _ = digits.drain(..zeros);
    zeros
}

/// Replaces the decimal digits that exceed the scale by zeros.
fn hide(weight: i32, scale: u16, digits: &mut [u16])
    requires digits { are_digits digits.old ≡ true }
    requires short { length digits.old ≤ max_digits }
    requires weight { negsuc 200000 ≤ℤ weight }
    ensures { digits.new ≡ shown weight scale digits.old }
{
    for (at, digit) in digits.iter_mut().enumerate() {
        *digit = without_decimals(*digit, hidden(weight - at as i32, scale));
    }
}

/// Returns how many of the decimal digits of a base-10,000 digit of that weight exceed the scale.
fn hidden(weight: i32, scale: u16) -> u32
    requires { negsuc 300000 ≤ℤ weight }
    ensures { result ≡ hidden weight scale }
{
    if weight >= 0 {
        return 0;
    }
    let decimals = (-4 * weight) as u32;
    decimals.saturating_sub(scale.into())
}

/// Returns the digit with its last `count` decimal digits replaced by zeros.
fn without_decimals(digit: u16, count: u32) -> u16
    requires { digit < base }
    ensures { result ≡ without_decimals count digit }
{
    let unit = match count {
        0 => 1,
        1 => 10,
        2 => 100,
        3 => 1000,
        _ => return 0,
    };
    digit / unit * unit
}

/// Removes the zeros at the end.
fn trim_end(digits: &mut Vec<u16>)
    ensures { digits.new.items ≡ without_trailing digits.old.items }
{
    while let [.., 0] = digits.as_slice() {
        let _ = digits.pop();
    }
}
