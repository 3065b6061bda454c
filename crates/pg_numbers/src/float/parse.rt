//! Parsing of FLOAT4 and FLOAT8.
ghost use Rattle.std.specs.Prelude.{◌≡◌, Some, codes, option_map, to_bits};
ghost use Rattle.std.specs.Float.{binary32, binary64, float_zero};
ghost use Rattle.std.specs.Float.Ieee.{eq};
ghost use Rattle.std.specs.Float.Numeral.{has_digits, scan_numeral};
ghost use Rattle.std.specs.Float.Parse.{without_sign};
ghost use Rattle.std.specs.List.{list_any};
ghost use Rattle.std.specs.Result.{result_ok};
ghost use Rattle.pg_numbers.specs.FloatTexts.{float_of, has_nonzero, is_nonzero};

use super::{Float4, Float8};
use fast_float::Numeral;
use std::error::Error;
use std::fmt;
use std::str::FromStr;

/// The error of a text that is not a value of the type, or is out of its range.
#[derive(Debug, Drop)]
pub struct ParseFloatError(());

impl fmt::Display for ParseFloatError {
    ghost output = { λ _. Some (codes "invalid float literal") };

    fn fmt<W: fmt::Write>(&self, f: &mut fmt::Formatter<W>) -> fmt::Result {
        f.write_str("invalid float literal")
    }
}

impl Error for ParseFloatError {}

/// Parses a numeral, which is rounded to the nearest number, or `NaN`, `inf` or `infinity` in any
/// case, each after a sign or none (`float4in`). As there, a numeral is refused that is rounded to an
/// infinity, or to zero though it is not zero. NaN is the quiet NaN of a clear sign. Unlike
/// `float4in` it takes no white space, no hexadecimal numeral and no payload.
impl FromStr for Float4 {
    type Err = ParseFloatError;

    ghost from_str_gives = { λ text parsed.
        result_ok parsed ≡ option_map (to_bits binary32) (float_of binary32 text) };

    fn from_str(text: &str) -> Result<Float4, ParseFloatError> {
        let x = float4_of(text.as_bytes()).ok_or(ParseFloatError(()))?;
        Ok(Float4::from(x))
    }
}

/// Parses a text as [`Float4`] does, with the range of FLOAT8 (`float8in`).
impl FromStr for Float8 {
    type Err = ParseFloatError;

    ghost from_str_gives = { λ text parsed.
        result_ok parsed ≡ option_map (to_bits binary64) (float_of binary64 text) };

    fn from_str(text: &str) -> Result<Float8, ParseFloatError> {
        let x = float8_of(text.as_bytes()).ok_or(ParseFloatError(()))?;
        Ok(Float8::from(x))
    }
}

/// Returns the FLOAT4 of a text.
fn float4_of(text: &[u8]) -> Option<f32>
    ensures { result ≡ float_of binary32 text.now }
{
    let x: f32 = fast_float::parse(text).ok()?;
    if has_digits(text) && (x.is_infinite() || (is_zero_f32(x) && has_nonzero(text))) {
        return None;
    }
    Some(x)
}

/// Returns the FLOAT8 of a text.
fn float8_of(text: &[u8]) -> Option<f64>
    ensures { result ≡ float_of binary64 text.now }
{
    let x: f64 = fast_float::parse(text).ok()?;
    if has_digits(text) && (x.is_infinite() || (is_zero_f64(x) && has_nonzero(text))) {
        return None;
    }
    Some(x)
}

/// Whether the number is 0 or -0.
pub(super) fn is_zero_f32(x: f32) -> bool
    ensures { result ≡ eq x float_zero }
{
    x == 0.0
}

/// Whether the number is 0 or -0.
pub(super) fn is_zero_f64(x: f64) -> bool
    ensures { result ≡ eq x float_zero }
{
    x == 0.0
}

/// Whether the text, after its sign, is a numeral and not a word. The text is known to be one of
/// them.
fn has_digits(text: &[u8]) -> bool
    ensures { result ≡ has_digits (scan_numeral (without_sign text.now)) }
{
    Numeral::scan(without_sign(text)).has_digits()
}

/// Whether a digit of the numeral is not 0, without the exponent.
fn has_nonzero(text: &[u8]) -> bool
    ensures { result ≡ has_nonzero (scan_numeral (without_sign text.now)) }
{
    let numeral = Numeral::scan(without_sign(text));
    any_nonzero(numeral.whole()) || any_nonzero(numeral.fraction())
}

/// Whether one of the digits is not 0.
fn any_nonzero(digits: &[u8]) -> bool
    ensures { result ≡ list_any is_nonzero digits.now }
{
    digits.iter().any(|digit| *digit != b'0')
}

/// Returns the text after its sign, if it has one.
fn without_sign(text: &[u8]) -> &[u8]
    ensures { result.now ≡ without_sign text.now }
{
    match text {
        [b'+' | b'-', unsigned @ ..] => unsigned,
        _ => text,
    }
}
