//! The exponents of NUMERIC's texts.
ghost use Rattle.std.specs.Prelude.{◌≡◌, ◌+◌, ◌^◌, ◌<◌, ◌≤◌, ◌++◌};
ghost use Rattle.std.specs.Prelude.{IfErr, IfOk, length, true};
ghost use Rattle.std.specs.Char.{is_ascii_digit};
ghost use Rattle.std.specs.List.{list_all};
ghost use Rattle.pg_types.specs.Faults.{Answers};
ghost use Rattle.pg_types.specs.declared.fault.Fault.TheVariants.{Memory};
ghost use Rattle.pg_numbers.specs.Numeric.{max_scale};
ghost use Rattle.pg_numbers.specs.NumericExponents.{exponent_at, exponent_of, is_below, is_exponent};
ghost use Rattle.pg_numbers.specs.NumericExponents.{mantissa_of, moved_digits, moved_scale};
ghost use Rattle.pg_numbers.specs.NumericExponents.{moved_zeros, power_digits, power_limit};
ghost use Rattle.pg_numbers.specs.NumericExponents.{power_value, zeros_after};
ghost use Rattle.pg_numbers.specs.NumericTexts.{ReadsMoved, ReadsNumeral, fits_places, max_integer};
ghost use Rattle.pg_numbers.specs.NumericTexts.{without_leading_zeros};

use super::text::{
    MAX_INTEGER, are_decimal, is_numeral, number_of, split_point, split_sign, too_long, value,
    without_zeros,
};
use super::{Decimal, MAX_SCALE};
use postgres_types::Fault;
use std::alloc::Global;

/// The least absolute value of an exponent that is refused whatever the digits are.
const POWER_LIMIT: usize = 1_073_741_823;

/// Parses digits, with a point or without, and an exponent after them or none.
pub(super) fn parse_scaled(alloc: Global, negative: bool, text: &[u8]) -> Result<Decimal, Fault>
    ensures { Answers (ReadsNumeral negative text.now) result }
{
    let (mantissa, exponent) = split_exponent(text);
    let (integer, decimals) = split_point(mantissa);
    if !is_numeral(integer, decimals) || !is_exponent(exponent) {
        return Err(Fault::user("invalid numeric text"));
    }
    let (below, digits) = split_power(exponent);
    match parse_power(digits) {
        Some(power) => parse_moved(alloc, negative, integer, decimals, below, power),
        None => Err(too_long()),
    }
}

/// How many bytes stand before the exponent, if there is one.
fn exponent_at(text: &[u8]) -> usize
    ensures place { result ≡ exponent_at text.now }
    ensures inside { result ≤ length text.now }
{
    text.iter()
        .take_while(|byte| !(**byte == b'e' || **byte == b'E'))
        .count()
}

/// Returns the text before the exponent, and the exponent with its letter.
fn split_exponent(text: &[u8]) -> (&[u8], &[u8])
    ensures mantissa { result.0.now ≡ mantissa_of text.now }
    ensures exponent { result.1.now ≡ exponent_of text.now }
{
    text.split_at(exponent_at(text))
}

/// Returns whether the exponent is negative, and its digits.
fn split_power(exponent: &[u8]) -> (bool, &[u8])
    ensures below { result.0 ≡ is_below exponent.now }
    ensures digits { result.1.now ≡ power_digits exponent.now }
{
    match exponent {
        [_, power @ ..] => split_sign(power),
        [] => (false, &[]),
    }
}

/// Whether this is an exponent, or there is none.
fn is_exponent(exponent: &[u8]) -> bool
    ensures { result ≡ is_exponent exponent.now }
{
    let (_, digits) = split_power(exponent);
    exponent.is_empty() || !digits.is_empty() && are_decimal(digits)
}

/// Returns the value of the digits if it is below the limit.
#[tactic(auto, using(crate::proofs::Exponents::power_steps))]
fn parse_power(digits: &[u8]) -> Option<usize>
    requires { list_all is_ascii_digit digits.now ≡ true }
    ensures { result ≡ power_value digits.now }
{
    let mut power = 0;
    let mut left = digits;
    while let [digit, others @ ..] = left {
        power = power * 10 + usize::from(value(*digit));
        if power >= POWER_LIMIT {
            return None;
        }
        left = others;
    }
    Some(power)
}

/// The scale of digits, so many of them decimals, after the exponent has moved the point.
fn moved_scale(below: bool, power: usize, decimals: usize) -> usize
    requires power { power < power_limit }
    requires decimals { decimals < 2 ^ 63 }
    ensures { result ≡ moved_scale below power decimals }
{
    if below {
        decimals + power
    } else {
        decimals.saturating_sub(power)
    }
}

/// How many zeros the exponent has put between the digits and the point.
fn moved_zeros(below: bool, power: usize, decimals: usize) -> usize
    ensures { result ≡ moved_zeros below power decimals }
{
    if below {
        0
    } else {
        power.saturating_sub(decimals)
    }
}

/// How many zeros stand after so many digits.
fn zeros_after(count: usize, zeros: usize) -> usize
    ensures { result ≡ zeros_after count zeros }
{
    if count == 0 { 0 } else { zeros }
}

/// Whether these digits and the zeros after them are not too many.
fn fits_places(count: usize, zeros: usize, scale: usize) -> bool
    ensures { result ≡ fits_places count zeros scale }
{
    let places = count.saturating_add(zeros).saturating_sub(scale);
    places <= MAX_INTEGER && scale <= usize::from(MAX_SCALE)
}

/// The digits before the point and after it without the zeros at their front.
#[tactic(auto, using(crate::proofs::Exponents::significant_steps))]
fn significant<'a>(integer: &'a [u8], decimals: &'a [u8]) -> (&'a [u8], &'a [u8])
    ensures { result.0.now ++ result.1.now ≡ without_leading_zeros (integer.now ++ decimals.now) }
{
    let integer = without_zeros(integer);
    if integer.is_empty() {
        (integer, without_zeros(decimals))
    } else {
        (integer, decimals)
    }
}

/// The number of the digits with the point moved by an exponent.
fn parse_moved(
    alloc: Global,
    negative: bool,
    integer: &[u8],
    decimals: &[u8],
    below: bool,
    power: usize,
) -> Result<Decimal, Fault>
    requires integer { list_all is_ascii_digit integer.now ≡ true }
    requires decimals { list_all is_ascii_digit decimals.now ≡ true }
    requires power { power < power_limit }
    ensures { Answers (ReadsMoved negative (integer.now ++ decimals.now) below power (length decimals.now)) result }
{
    let scale = moved_scale(below, power, decimals.len());
    let zeros = moved_zeros(below, power, decimals.len());
    let (integer, decimals) = significant(integer, decimals);
    let count = integer.len() + decimals.len();
    let zeros = zeros_after(count, zeros);
    if !fits_places(count, zeros, scale) {
        return Err(too_long());
    }
    let digits = moved_digits(alloc, integer, decimals, zeros, scale)?;
    let (integer, decimals) = digits.split_at(digits.len() - scale);
    number_of(alloc, negative, integer, decimals)
}

/// The digits with the zeros after them and, where they are fewer than the scale says, before them.
fn moved_digits(
    alloc: Global,
    integer: &[u8],
    decimals: &[u8],
    zeros: usize,
    scale: usize,
) -> Result<Vec<u8>, Fault>
    requires few { length integer.now + length decimals.now + zeros ≤ max_integer + max_scale }
    requires short { scale ≤ max_scale }
    ensures ok { IfOk result
        (λ digits. digits.items ≡ moved_digits (integer.now ++ decimals.now) zeros scale) }
    ensures refused { IfErr result (λ fault. fault ≡ Memory) }
{
    let count = integer.len() + decimals.len() + zeros;
    let front = scale.saturating_sub(count);
    let mut digits = Vec::with_capacity(alloc, front + count)?;
    digits.resize(front, b'0')?;
    digits.extend_from_slice(integer)?;
    digits.extend_from_slice(decimals)?;
    digits.resize(front + count, b'0')?;
    Ok(digits)
}
