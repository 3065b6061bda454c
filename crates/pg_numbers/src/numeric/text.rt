//! The texts of NUMERIC.
ghost use Rattle.std.specs.Prelude.{◌≡◌, ◌^◌, ◌+◌, ◌*◌, ◌<◌, ◌≤◌, ◌≤ℤ◌, ◌∷◌, ◌++◌, []};
ghost use Rattle.std.specs.Prelude.{IfErr, IfOk, Some, length, map, negsuc, pos, true};
ghost use Rattle.std.specs.Char.{digit_value, is_ascii_digit, to_ascii_lowercase};
ghost use Rattle.std.specs.Float.Parse.{is_infinity_text, is_nan_text, lowercases_to};
ghost use Rattle.std.specs.Fmt.{WritesOnOk};
ghost use Rattle.std.specs.List.{list_all, prefix_len, suffix_len};
ghost use Rattle.std.specs.Str.Parse.{digits_value, starts_with_minus, without_leading_sign};
ghost use Rattle.pg_calendar.specs.Texts.{padded_text};
ghost use Rattle.pg_types.specs.Faults.{Answers, refusal_of};
ghost use Rattle.pg_types.specs.declared.fault.Fault.TheVariants.{Memory};
ghost use Rattle.pg_numbers.specs.Numeric.{max_scale};
ghost use Rattle.pg_numbers.specs.NumericTexts.{IsScaled, ParsesNumber, ParsesNumeric, ReadsNumeral};
ghost use Rattle.pg_numbers.specs.NumericTexts.{base_digits, decimal_zeros, decimals_of};
ghost use Rattle.pg_numbers.specs.NumericTexts.{decimals_text, digit_of, digits_text, first_decimals};
ghost use Rattle.pg_numbers.specs.NumericTexts.{first_weight, front_group, grouped, integer_of};
ghost use Rattle.pg_numbers.specs.NumericTexts.{integer_text, is_numeral, is_space, max_integer};
ghost use Rattle.pg_numbers.specs.NumericTexts.{number_text, numeric_text, point_of, too_long, trimmed};
ghost use Rattle.pg_numbers.specs.NumericTexts.{trimmed_end, trimmed_start, without_leading_zeros};
ghost use Rattle.pg_numbers.specs.NumericTexts.{word_value};

use super::exponent::parse_scaled;
use super::{Decimal, MAX_SCALE, Numeric};
use postgres_types::Fault;
use std::alloc::Global;
use std::fmt;

/// The most digits of a number before the point.
pub(super) const MAX_INTEGER: usize = 131_072;

/// Writes `NaN`, `Infinity`, `-Infinity`, or the number (`numeric_out`).
impl fmt::Display for Numeric {
    ghost output = { λ v. Some (numeric_text v) };

    fn fmt<W: fmt::Write>(&self, f: &mut fmt::Formatter<W>) -> fmt::Result {
        match self {
            Numeric::NaN => f.write_str("NaN"),
            Numeric::Infinity => f.write_str("Infinity"),
            Numeric::NegativeInfinity => f.write_str("-Infinity"),
            Numeric::Finite(v) => write!(f, "{v}"),
        }
    }
}

/// Writes `-` if the number is negative, the integral part and, if the scale is not 0, a point and
/// as many decimal digits as the scale (`numeric_out`).
impl fmt::Display for Decimal {
    ghost output = { λ v. Some (number_text v) };

    fn fmt<W: fmt::Write>(&self, f: &mut fmt::Formatter<W>) -> fmt::Result {
        if self.is_negative() {
            f.write_str("-")?;
        }
        write_integer(self, f)?;
        if self.scale() == 0 {
            return Ok(());
        }
        f.write_str(".")?;
        write_decimals(self, f)
    }
}

/// Returns the digit of that weight.
fn digit_of(v: &Decimal, weight: i32) -> u16
    requires low { negsuc 100000 ≤ℤ weight }
    requires high { weight ≤ℤ pos 32767 }
    ensures { result ≡ digit_of v.now weight }
{
    let at = i32::from(v.weight()) - weight;
    match usize::try_from(at) {
        Ok(at) => v.digits().get(at).copied().unwrap_or(0),
        Err(_) => 0,
    }
}

/// The weight of the first digit before the point.
#[tactic(auto, using(crate::proofs::WrittenDigits::first_negative, crate::proofs::WrittenDigits::first_positive))]
fn first_weight(v: &Decimal) -> u16
    ensures first { result ≡ first_weight v.now.weight }
    ensures small { result < 2 ^ 15 }
{
    let weight = v.weight();
    if weight < 0 { 0 } else { weight as u16 }
}

/// Writes the integral part.
fn write_integer<W: fmt::Write>(v: &Decimal, f: &mut fmt::Formatter<W>) -> fmt::Result
    ensures { WritesOnOk W.write_str_gives f.old result (integer_text v.now) f.new }
{
    let first = first_weight(v);
    write!(f, "{}", digit_of(v, first.into()))?;
    write_digits(v, i32::from(first) - 1, first, f)
}

/// Writes so many digits from that weight down, in four decimals each.
fn write_digits<W: fmt::Write>(
    v: &Decimal,
    weight: i32,
    count: u16,
    f: &mut fmt::Formatter<W>,
) -> fmt::Result
    requires low { negsuc 0 ≤ℤ weight }
    requires high { weight ≤ℤ pos 32767 }
    ensures { WritesOnOk W.write_str_gives f.old result (digits_text v.now weight count) f.new }
{
    for place in 0..count {
        write_digit(v, weight - i32::from(place), f)?;
    }
    Ok(())
}

/// Writes the digit of that weight in four decimals.
#[tactic(auto, using(pg_calendar::proofs::Padding::padded_hole))]
fn write_digit<W: fmt::Write>(v: &Decimal, weight: i32, f: &mut fmt::Formatter<W>) -> fmt::Result
    requires low { negsuc 100000 ≤ℤ weight }
    requires high { weight ≤ℤ pos 32767 }
    ensures { WritesOnOk W.write_str_gives f.old result (padded_text 4 (digit_of v.now weight)) f.new }
{
    let digit = digit_of(v, weight);
    write!(f, "{digit:04}")
}

/// Writes the decimal digits after the point, four for each base-10,000 digit.
fn write_decimals<W: fmt::Write>(v: &Decimal, f: &mut fmt::Formatter<W>) -> fmt::Result
    ensures { WritesOnOk W.write_str_gives f.old result (decimals_text v.now) f.new }
{
    let full = v.scale() / 4;
    write_digits(v, -1, full, f)?;
    write_first(digit_of(v, -1 - i32::from(full)), v.scale() % 4, f)
}

/// Writes the first decimals of a digit, so many of the four.
#[tactic(auto, using(pg_calendar::proofs::Padding::padded_hole))]
fn write_first<W: fmt::Write>(digit: u16, count: u16, f: &mut fmt::Formatter<W>) -> fmt::Result
    requires { count < 4 }
    ensures { WritesOnOk W.write_str_gives f.old result (first_decimals count digit) f.new }
{
    match count {
        1 => write!(f, "{:01}", digit / 1000),
        2 => write!(f, "{:02}", digit / 100),
        3 => write!(f, "{:03}", digit / 10),
        _ => Ok(()),
    }
}

impl Numeric {
    /// Parses `NaN`, which has no sign, or `Infinity` or `inf`, with a sign or without, each in any
    /// case, or a number as [`Decimal::parse`] does. White space is allowed before and after
    /// (`numeric_in`).
    ///
    /// The faults are those of [`Decimal::parse`].
    pub fn parse(alloc: Global, text: &str) -> Result<Numeric, Fault>
        ensures { Answers (ParsesNumeric text.now) result }
    {
        let text = trimmed(text.as_bytes());
        if let Some(value) = word_value(text) {
            return Ok(value);
        }
        let (negative, unsigned) = split_sign(text);
        Ok(Numeric::Finite(parse_number(alloc, negative, unsigned)?))
    }
}

impl Decimal {
    /// Parses a sign, which may be absent, decimal digits, one at least, with a point or without,
    /// and an exponent or none (`numeric_in`). An exponent is `e` or `E`, a sign, which may be
    /// absent, and decimal digits, one at least; it moves the point to the right, or to the left if
    /// it is negative: `1.5e-3` is 0.0015, and `1.50e1` is 15.0. The scale is the number of digits
    /// after the moved point.
    ///
    /// Any other text is `User`, and so is a number of more than 131,072 digits before the moved
    /// point, where zeros at its front do not count, or more than 16,383 after it. An exponent of
    /// 1,073,741,823 or more is `User` also where the number is 0.
    pub fn parse(alloc: Global, text: &str) -> Result<Decimal, Fault>
        ensures { Answers (ParsesNumber text.now) result }
    {
        let (negative, unsigned) = split_sign(text.as_bytes());
        parse_number(alloc, negative, unsigned)
    }
}

/// Whether PostgreSQL takes the byte as white space.
fn is_space(byte: u8) -> bool
    ensures { result ≡ is_space byte }
{
    byte == b' ' || byte >= b'\t' && byte <= b'\r'
}

/// How many bytes of white space stand at the start of the text.
fn leading_spaces(text: &[u8]) -> usize
    ensures count { result ≡ prefix_len is_space text.now }
    ensures inside { result ≤ length text.now }
{
    text.iter().take_while(|byte| is_space(**byte)).count()
}

/// How many bytes of white space stand at the end of the text.
fn trailing_spaces(text: &[u8]) -> usize
    ensures count { result ≡ suffix_len is_space text.now }
    ensures inside { result ≤ length text.now }
{
    text.iter()
        .rev()
        .take_while(|byte| is_space(**byte))
        .count()
}

/// The text without the white space at its start.
fn trimmed_start(text: &[u8]) -> &[u8]
    ensures { result.now ≡ trimmed_start text.now }
{
    &text[leading_spaces(text)..]
}

/// The text without the white space at its end.
fn trimmed_end(text: &[u8]) -> &[u8]
    ensures { result.now ≡ trimmed_end text.now }
{
    &text[..text.len() - trailing_spaces(text)]
}

/// The text without the white space at its start and at its end.
fn trimmed(text: &[u8]) -> &[u8]
    ensures { result.now ≡ trimmed text.now }
{
    trimmed_end(trimmed_start(text))
}

/// Returns the value of the text if it is `NaN`, `Infinity` or `inf`, the infinities with a sign or
/// without.
fn word_value(text: &[u8]) -> Option<Numeric>
    ensures { result ≡ word_value text.now }
{
    if is_nan(text) {
        return Some(Numeric::NaN);
    }
    let (negative, unsigned) = split_sign(text);
    if !is_infinity(unsigned) {
        None
    } else if negative {
        Some(Numeric::NegativeInfinity)
    } else {
        Some(Numeric::Infinity)
    }
}

/// Whether the text is the word NaN, in any case.
fn is_nan(text: &[u8]) -> bool
    ensures { result ≡ is_nan_text text.now }
{
    is_word(text, b"nan")
}

/// Whether the text is the word Infinity or inf, in any case.
fn is_infinity(text: &[u8]) -> bool
    ensures { result ≡ is_infinity_text text.now }
{
    is_word(text, b"inf") || is_word(text, b"infinity")
}

/// Whether the text is the word, in any case.
fn is_word(text: &[u8], word: &[u8]) -> bool
    ensures { result ≡ lowercases_to text.now (map to_ascii_lowercase word.now) }
{
    text.eq_ignore_ascii_case(word)
}

/// Returns whether the text begins with `-`, and the text after the sign.
pub(super) fn split_sign(text: &[u8]) -> (bool, &[u8])
    ensures sign { result.0 ≡ starts_with_minus text.now }
    ensures unsigned { result.1.now ≡ without_leading_sign text.now }
{
    match text {
        [b'-', unsigned @ ..] => (true, unsigned),
        [b'+', unsigned @ ..] => (false, unsigned),
        _ => (false, text),
    }
}

/// Parses digits, with a point or without, and an exponent after them or none.
fn parse_number(alloc: Global, negative: bool, text: &[u8]) -> Result<Decimal, Fault>
    ensures { Answers (ReadsNumeral negative text.now) result }
{
    let (integer, decimals) = split_point(text);
    if !is_numeral(integer, decimals) {
        return parse_scaled(alloc, negative, text);
    }
    let integer = without_zeros(integer);
    if integer.len() > MAX_INTEGER || decimals.len() > usize::from(MAX_SCALE) {
        return Err(too_long());
    }
    number_of(alloc, negative, integer, decimals)
}

/// The fault of a number that is too long.
pub(super) fn too_long() -> Fault
    ensures { refusal_of result ≡ Some too_long }
{
    Fault::user("value overflows numeric format")
}

/// The number of the decimal digits before the point and after it.
pub(super) fn number_of(
    alloc: Global,
    negative: bool,
    integer: &[u8],
    decimals: &[u8],
) -> Result<Decimal, Fault>
    requires integer { list_all is_ascii_digit integer.now ≡ true }
    requires decimals { list_all is_ascii_digit decimals.now ≡ true }
    requires few { length integer.now ≤ max_integer }
    requires short { length decimals.now ≤ max_scale }
    ensures ok { IfOk result
        (IsScaled negative (digits_value 10 (integer.now ++ decimals.now)) (length decimals.now)) }
    ensures refused { IfErr result (λ fault. fault ≡ Memory) }
{
    let digits = base_digits(alloc, integer, decimals)?;
    let weight = integer.len().div_ceil(4) as i32 - 1;
    let number = Decimal::from_parts(negative, weight as i16, decimals.len() as u16, digits);
    // Its digits are those of a number.
    let _ = number.digits();
    Ok(number)
}

/// How many bytes stand before the first point, if there is one.
fn point_of(text: &[u8]) -> usize
    ensures place { result ≡ point_of text.now }
    ensures inside { result ≤ length text.now }
{
    text.iter().take_while(|byte| **byte != b'.').count()
}

/// Returns the text before the point and the text after it.
pub(super) fn split_point(text: &[u8]) -> (&[u8], &[u8])
    ensures integer { result.0.now ≡ integer_of text.now }
    ensures decimals { result.1.now ≡ decimals_of text.now }
{
    match text.split_at(point_of(text)) {
        (integer, [_, decimals @ ..]) => (integer, decimals),
        (integer, []) => (integer, &[]),
    }
}

/// Whether these are decimal digits, one at least.
pub(super) fn is_numeral(integer: &[u8], decimals: &[u8]) -> bool
    ensures { result ≡ is_numeral integer.now decimals.now }
{
    !(integer.is_empty() && decimals.is_empty()) && are_decimal(integer) && are_decimal(decimals)
}

/// Whether each byte is a decimal digit.
pub(super) fn are_decimal(text: &[u8]) -> bool
    ensures { result ≡ list_all is_ascii_digit text.now }
{
    text.iter().all(|byte| byte.is_ascii_digit())
}

/// How many zeros stand at the front of the digits.
fn leading_zeros(digits: &[u8]) -> usize
    ensures count { result ≡ decimal_zeros digits.now }
    ensures inside { result ≤ length digits.now }
{
    digits.iter().take_while(|byte| **byte == b'0').count()
}

/// The digits without the zeros at their front.
pub(super) fn without_zeros(digits: &[u8]) -> &[u8]
    ensures { result.now ≡ without_leading_zeros digits.now }
{
    &digits[leading_zeros(digits)..]
}

/// The digits to the base 10,000 of the decimal ones before the point and after it.
#[tactic(auto, using(crate::proofs::ReadTexts::base_steps))]
fn base_digits(alloc: Global, integer: &[u8], decimals: &[u8]) -> Result<Vec<u16>, Fault>
    requires integer { list_all is_ascii_digit integer.now ≡ true }
    requires decimals { list_all is_ascii_digit decimals.now ≡ true }
    ensures ok { IfOk result (λ digits. digits.items ≡ base_digits integer.now decimals.now) }
    ensures refused { IfErr result (λ fault. fault ≡ Memory) }
{
    let (first, others) = integer.split_at(integer.len() % 4);
    let mut digits = front_group(alloc, first)?;
    push_groups(others, &mut digits)?;
    push_groups(decimals, &mut digits)?;
    Ok(digits)
}

/// The digit of the first decimal ones, fewer than four, if there are any.
#[tactic(auto, using(crate::proofs::ReadTexts::front_steps))]
fn front_group(alloc: Global, text: &[u8]) -> Result<Vec<u16>, Fault>
    requires digits { list_all is_ascii_digit text.now ≡ true }
    requires short { length text.now < 4 }
    ensures ok { IfOk result (λ digits. digits.items ≡ front_group text.now) }
    ensures refused { IfErr result (λ fault. fault ≡ Memory) }
{
    let mut digits = Vec::new(alloc);
    match text {
        [a] => digits.push(group(b'0', b'0', b'0', *a))?,
        [a, b] => digits.push(group(b'0', b'0', *a, *b))?,
        [a, b, c] => digits.push(group(b'0', *a, *b, *c))?,
        _ => {}
    }
    Ok(digits)
}

/// Appends the digits of decimal ones, of four each, where zeros fill the last.
#[tactic(auto, using(crate::proofs::ReadTexts::group_steps))]
fn push_groups(text: &[u8], digits: &mut Vec<u16>) -> Result<(), Fault>
    requires { list_all is_ascii_digit text.now ≡ true }
    ensures ok { IfOk result (λ _. digits.new.items ≡ digits.old.items ++ grouped text.now) }
    ensures refused { IfErr result (λ fault. fault ≡ Memory) }
{
    let mut left = text;
    while let [a, b, c, d, others @ ..] = left {
        digits.push(group(*a, *b, *c, *d))?;
        left = others;
    }
    match left {
        [a, b, c] => digits.push(group(*a, *b, *c, b'0'))?,
        [a, b] => digits.push(group(*a, *b, b'0', b'0'))?,
        [a] => digits.push(group(*a, b'0', b'0', b'0'))?,
        _ => {}
    }
    Ok(())
}

/// The digit of four decimal ones.
fn group(a: u8, b: u8, c: u8, d: u8) -> u16
    requires a { is_ascii_digit a ≡ true }
    requires b { is_ascii_digit b ≡ true }
    requires c { is_ascii_digit c ≡ true }
    requires d { is_ascii_digit d ≡ true }
    ensures { result ≡ digits_value 10 (a ∷ b ∷ c ∷ d ∷ []) }
{
    value(a) * 1000 + value(b) * 100 + value(c) * 10 + value(d)
}

/// The value of a decimal digit.
#[tactic(auto, using(crate::proofs::ReadTexts::ascii_range))]
pub(super) fn value(digit: u8) -> u16
    requires { is_ascii_digit digit ≡ true }
    ensures value { result ≡ digit_value digit }
    ensures small { result < 10 }
{
    u16::from(digit - b'0')
}
