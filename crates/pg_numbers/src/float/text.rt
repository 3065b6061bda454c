//! Texts of FLOAT4 and FLOAT8.
ghost use Rattle.std.specs.Prelude.{◌≡◌, ◌<◌, ◌++◌, IfSome, IsTrue, Some, from_bits, length};
ghost use Rattle.std.specs.Float.{binary32, binary64, float_is_finite};
ghost use Rattle.std.specs.Fmt.{sign_text};
ghost use Rattle.fast_float.specs.Parse.{parse_float};
ghost use Rattle.pg_numbers.specs.FloatTexts.{float_of, word_of};

use super::decimal::{Decimal, decimal_of, nearer, size_of};
use super::parse::{is_zero_f32, is_zero_f64};
use super::{Float4, Float8};
use arrayvec::ArrayString;
use ryu::Float;
use std::fmt;
use std::fmt::Write;
use std::num::{f32_from_bits_with_nan, f64_from_bits_with_nan};

/// The greatest length in bytes of a text.
pub const TEXT_LEN: usize = 32;

/// The text of a value. It is on the stack: making it does not allocate.
pub type FloatText = ArrayString<TEXT_LEN>;

impl Float4 {
    /// Returns the text of the value, as `float4out` writes it if `extra_float_digits` is 1 or
    /// more, which is the default. It is as that of [`Float8`], but with an exponent from 10^6 on.
    pub fn text(self) -> FloatText
        ensures reads { float_of binary32 result.bytes ≡ Some (from_bits binary32 self) }
        ensures words { IfSome (word_of (from_bits binary32 self)) (λ word. result.bytes ≡ word) }
    {
        float4_text(self.to_bits())
    }
}

impl Float8 {
    /// Returns the text of the value, as `float8out` writes it if `extra_float_digits` is 1 or
    /// more, which is the default: the shortest decimal that is nearer to the number than to any
    /// other one, or `NaN`, `Infinity` or `-Infinity`. Below 10^-4 and from 10^15 on, the decimal
    /// has an exponent, of at least two digits.
    pub fn text(self) -> FloatText
        ensures reads { float_of binary64 result.bytes ≡ Some (from_bits binary64 self) }
        ensures words { IfSome (word_of (from_bits binary64 self)) (λ word. result.bytes ≡ word) }
    {
        float8_text(self.to_bits())
    }
}

/// Writes the text of the value.
impl fmt::Display for Float4 {
    fn fmt<W: fmt::Write>(&self, f: &mut fmt::Formatter<W>) -> fmt::Result {
        f.pad(self.text().as_str())
    }
}

/// Writes the text of the value.
impl fmt::Display for Float8 {
    fn fmt<W: fmt::Write>(&self, f: &mut fmt::Formatter<W>) -> fmt::Result {
        f.pad(self.text().as_str())
    }
}

impl fmt::Debug for Float4 {
    fn fmt<W: fmt::Write>(&self, f: &mut fmt::Formatter<W>) -> fmt::Result {
        fmt::Display::fmt(self, f)
    }
}

impl fmt::Debug for Float8 {
    fn fmt<W: fmt::Write>(&self, f: &mut fmt::Formatter<W>) -> fmt::Result {
        fmt::Display::fmt(self, f)
    }
}

/// Returns the text of a FLOAT4 of these bits.
#[tactic(auto, using(crate::proofs::FloatWords::float_texts))]
fn float4_text(bits: u32) -> FloatText
    ensures reads { float_of binary32 result.bytes ≡ Some (from_bits binary32 bits) }
    ensures words { IfSome (word_of (from_bits binary32 bits)) (λ word. result.bytes ≡ word) }
{
    let x = f32_from_bits_with_nan(bits);
    if x.is_nan() {
        word(false, "NaN")
    } else if x.is_infinite() {
        word(x.is_sign_negative(), "Infinity")
    } else if is_zero_f32(x) {
        word(x.is_sign_negative(), "0")
    } else {
        finite_text(x, 6)
    }
}

/// Returns the text of a FLOAT8 of these bits.
#[tactic(auto, using(crate::proofs::FloatWords::float_texts))]
fn float8_text(bits: u64) -> FloatText
    ensures reads { float_of binary64 result.bytes ≡ Some (from_bits binary64 bits) }
    ensures words { IfSome (word_of (from_bits binary64 bits)) (λ word. result.bytes ≡ word) }
{
    let x = f64_from_bits_with_nan(bits);
    if x.is_nan() {
        word(false, "NaN")
    } else if x.is_infinite() {
        word(x.is_sign_negative(), "Infinity")
    } else if is_zero_f64(x) {
        word(x.is_sign_negative(), "0")
    } else {
        finite_text(x, 15)
    }
}

/// Returns a word, after `-` if it is negative.
fn word(is_negative: bool, word: &'static str) -> FloatText
    requires { length word.now < TEXT_LEN }
    ensures { result.bytes ≡ sign_text is_negative ++ word.now }
{
    let mut text = FloatText::new();
    if is_negative {
        text.push('-');
    }
    text.push_str(word);
    text
}

/// Returns the text of a finite number. It has an exponent if there would be more than
/// `whole_digits` digits before the point, or more than 3 zeros after it.
///
/// If the text that is laid out does not read as the number, of which no case is known, it is the
/// text of `ryu`.
#[tactic(auto, using(ryu::proofs::Signs::finite_number))]
fn finite_text<F: Float>(x: F, whole_digits: i64) -> FloatText
    requires { IsTrue (float_is_finite (F.value x)) }
    ensures { parse_float F.format result.bytes ≡ Some (F.value x) }
{
    let mut buffer = ryu::Buffer::new();
    let shortest = buffer.format_finite(x);
    let decimal = nearer(decimal_of(shortest), size_of(x));
    match lay_out(shortest.starts_with('-'), decimal, whole_digits) {
        Some(text) if reads_as(text.as_str(), x) => text,
        _ => ArrayString::from(shortest).unwrap(),
    }
}

/// Whether the text reads as the number.
#[tactic(auto, using(ryu::proofs::Signs::finite_number))]
fn reads_as<F: Float>(text: &str, x: F) -> bool
    requires { IsTrue (float_is_finite (F.value x)) }
    ensures { IsTrue result → parse_float F.format text.now ≡ Some (F.value x) }
{
    match fast_float::parse::<F, &str>(text) {
        Ok(y) => y.is_number() && y.raw_bits() == x.raw_bits(),
        Err(_) => false,
    }
}

/// Returns the text of a decimal with a sign.
fn lay_out(is_negative: bool, decimal: Decimal, whole_digits: i64) -> Option<FloatText> {
    let mut digits = ArrayString::<20>::new();
    write!(digits, "{}", decimal.digits).ok()?;
    let mut text = FloatText::new();
    if is_negative {
        text.try_push('-').ok()?;
    }
    // The number is 0.DIGITS * 10 ^ point.
    let point = i64::from(decimal.exponent) + digits.len() as i64;
    if point <= -4 || point > whole_digits {
        write_scientific(&digits, point - 1, &mut text).ok()?;
    } else {
        write_fixed(&digits, point, &mut text).ok()?;
    }
    Some(text)
}

/// Appends the digits, with a point after the first one if there are more, and the exponent, as in
/// `1.5e+20`.
fn write_scientific(digits: &str, exponent: i64, text: &mut FloatText) -> fmt::Result {
    let first = digits.get(..1).unwrap_or("");
    let others = digits.get(1..).unwrap_or("");
    let point = if others.is_empty() { "" } else { "." };
    write!(text, "{first}{point}{others}e{exponent:+03}")
}

/// Appends the digits, with a point at that place if a digit follows it, as in `150.25`, `0.0015`
/// and `1500`.
fn write_fixed(digits: &str, point: i64, text: &mut FloatText) -> fmt::Result {
    if point <= 0 {
        let zeros = "000".get(..point.unsigned_abs() as usize).unwrap_or("");
        return write!(text, "0.{zeros}{digits}");
    }
    let point = point as usize;
    if point >= digits.len() {
        let zeros = "00000000000000".get(..point - digits.len()).unwrap_or("");
        return write!(text, "{digits}{zeros}");
    }
    let whole = digits.get(..point).unwrap_or("");
    let fraction = digits.get(point..).unwrap_or("");
    write!(text, "{whole}.{fraction}")
}
