//! The cells of NUMERIC: the number of digits, the weight of the first, the sign, the scale and the
//! digits, each in 2 bytes, big-endian.
ghost use Rattle.std.specs.Prelude.{◌≡◌, ◌≤◌, ◌+◌, ◌*◌, ◌++◌, None, Some, IfOk, IfErr, drop, length, pos, true};
ghost use Rattle.pg_types.specs.declared.fault.Fault.TheVariants.{Memory};
ghost use Rattle.pg_types.specs.Faults.{Answers, NeverMemory};
ghost use Rattle.pg_base.specs.Appending.{Appends};
ghost use Rattle.pg_base.specs.Formats.{Decodes};
ghost use Rattle.pg_numbers.specs.Numeric.{are_digits, is_number, max_digits};
ghost use Rattle.pg_numbers.specs.NumericCells.{FormNumeric, digit_bytes, first_fault_numeric, head_bytes};
ghost use Rattle.pg_numbers.specs.NumericCells.{head_len, is_numeric, is_sign, number_bytes, numbers_in, numeric_bytes};
ghost use Rattle.pg_numbers.specs.NumericCells.{scale_in, sign_in, sign_of, weight_in};

use super::{BASE, Decimal, MAX_SCALE, Numeric, invalid_digit, invalid_scale};
use postgres_types::Fault;
use postgres_types::private::BytesMut;
use std::alloc::Global;

/// The sign of a number that is not negative.
const POSITIVE: u16 = 0;

/// The sign of a negative number.
const NEGATIVE: u16 = 0x4000;

/// The sign of NaN.
const NAN: u16 = 0xC000;

/// The sign of `Infinity`.
const INFINITY: u16 = 0xD000;

/// The sign of `-Infinity`.
const NEGATIVE_INFINITY: u16 = 0xF000;

/// The scale of the cells in which infinities are written.
const INFINITY_SCALE: u16 = 32;

/// The fields of a cell, after its number of digits.
#[derive(Debug, Clone, Copy)]
struct Stated<'a> {
    sign: u16,
    weight: i16,
    scale: u16,
    /// Two bytes for each digit.
    digits: &'a [u8],
}

/// Reads NUMERIC (`numeric_recv`).
///
/// The checks, in this order: fewer than 8 bytes are refused with `Size`; a sign other than 0 and
/// 0x4000 (numbers), 0xC000 (NaN), 0xD000 and 0xF000 (infinities) with `User`; a scale greater than
/// 16,383 with `User`; a length that does not fit the number of digits with `Size`; and a digit
/// greater than 9,999 with `User`. The values of NaN and the infinities do not depend on the other
/// fields.
///
/// As in the server, decimal digits that exceed the scale are truncated, zeros before the first
/// digit and after the last one are removed, and a negative zero is zero.
pub(super) fn numeric_from_sql(alloc: Global, raw: &[u8]) -> Result<Numeric, Fault>
    ensures { Answers (Decodes FormNumeric first_fault_numeric raw.now) result }
{
    let stated = check(raw)?;
    match stated.sign {
        NAN => Ok(Numeric::NaN),
        INFINITY => Ok(Numeric::Infinity),
        NEGATIVE_INFINITY => Ok(Numeric::NegativeInfinity),
        sign => {
            let digits = digits_of(alloc, stated.digits)?;
            Ok(Numeric::Finite(Decimal::from_parts(
                sign == NEGATIVE,
                stated.weight,
                stated.scale,
                digits,
            )))
        }
    }
}

/// Returns the fields of the cell, after all checks.
fn check(raw: &[u8]) -> Result<Stated<'_>, Fault>
    ensures outcome { Answers (Decodes (λ b s. (first_fault_numeric b ≡ None) × (s.sign ≡ sign_in b)
        × (s.weight ≡ weight_in b) × (s.scale ≡ scale_in b) × (s.digits.now ≡ drop head_len b))
        first_fault_numeric raw.now) result }
    ensures short { IfOk result (λ s. length s.digits.now ≤ 2 * max_digits) }
    ensures never_memory { NeverMemory result }
{
    let [n0, n1, w0, w1, s0, s1, d0, d1, digits @ ..] = raw else {
        return Err(Fault::Size);
    };
    let sign = u16::from_be_bytes([*s0, *s1]);
    if !is_sign(sign) {
        return Err(Fault::user("invalid sign in external numeric value"));
    }
    let scale = u16::from_be_bytes([*d0, *d1]);
    if scale > MAX_SCALE {
        return Err(invalid_scale());
    }
    if digits.len() != 2 * usize::from(u16::from_be_bytes([*n0, *n1])) {
        return Err(Fault::Size);
    }
    if !are_digits(digits) {
        return Err(invalid_digit());
    }
    Ok(Stated {
        sign,
        weight: i16::from_be_bytes([*w0, *w1]),
        scale,
        digits,
    })
}

/// Whether the sign is one of the five.
fn is_sign(sign: u16) -> bool
    ensures { result ≡ is_sign sign }
{
    matches!(
        sign,
        POSITIVE | NEGATIVE | NAN | INFINITY | NEGATIVE_INFINITY
    )
}

/// Whether each pair of bytes is a base-10,000 digit.
#[tactic(auto, using(crate::proofs::CellBytes::numbers_more, crate::proofs::CellBytes::numbers_end))]
fn are_digits(bytes: &[u8]) -> bool
    ensures { result ≡ are_digits (numbers_in bytes.now) }
{
    let mut left = bytes;
    while let [high, low, rest @ ..] = left {
        if u16::from_be_bytes([*high, *low]) >= BASE {
            return false;
        }
        left = rest;
    }
    true
}

/// Returns the digits of the bytes, two bytes each.
#[tactic(auto, using(crate::proofs::CellBytes::numbers_more, crate::proofs::CellBytes::numbers_end))]
fn digits_of(alloc: Global, bytes: &[u8]) -> Result<Vec<u16>, Fault>
    ensures ok { IfOk result (λ digits. digits.items ≡ numbers_in bytes.now) }
    ensures refused { IfErr result (λ fault. fault ≡ Memory) }
{
    let mut digits = Vec::with_capacity(alloc, bytes.len() / 2)?;
    let mut left = bytes;
    while let [high, low, rest @ ..] = left {
        digits.push(u16::from_be_bytes([*high, *low]))?;
        left = rest;
    }
    Ok(digits)
}

/// Appends NUMERIC (`numeric_send`). NaN and the infinities have no digits and the weight 0. As in
/// the server, the scale of NaN is 0, and that of the infinities is 32.
pub(super) fn numeric_to_sql(v: &Numeric, out: &mut BytesMut) -> Result<(), Fault>
    ensures appends { Appends (Some (numeric_bytes v.now)) out.old out.new result }
    // The writer uses this: in the specification, only such a value has a cell.
    ensures numeric { is_numeric v.now ≡ true }
{
    match v {
        Numeric::NaN => special_to_sql(NAN, 0, out),
        Numeric::Infinity => special_to_sql(INFINITY, INFINITY_SCALE, out),
        Numeric::NegativeInfinity => special_to_sql(NEGATIVE_INFINITY, INFINITY_SCALE, out),
        Numeric::Finite(v) => decimal_to_sql(v, out),
    }
}

/// Appends the cell of NaN or an infinity.
fn special_to_sql(sign: u16, scale: u16, out: &mut BytesMut) -> Result<(), Fault>
    ensures { Appends (Some (head_bytes 0 (pos 0) sign scale)) out.old out.new result }
{
    out.extend_from_slice(&head(0, 0, sign, scale))?;
    Ok(())
}

/// Appends the cell of a number.
fn decimal_to_sql(v: &Decimal, out: &mut BytesMut) -> Result<(), Fault>
    ensures number { is_number v.now ≡ true }
    ensures appends { Appends (Some (number_bytes v.now)) out.old out.new result }
{
    let digits = v.digits();
    let sign = sign_of(v.is_negative());
    out.reserve(8 + 2 * digits.len())?;
    out.extend_reserved(&head(digits.len() as u16, v.weight(), sign, v.scale()));
    extend_by_digits(digits, out);
    Ok(())
}

/// Returns the sign of a number.
fn sign_of(negative: bool) -> u16
    ensures { result ≡ sign_of negative }
{
    if negative { NEGATIVE } else { POSITIVE }
}

/// Returns the header: the bytes before the digits.
fn head(count: u16, weight: i16, sign: u16, scale: u16) -> [u8; 8]
    ensures { result ≡ head_bytes count weight sign scale }
{
    let [n0, n1] = count.to_be_bytes();
    let [w0, w1] = weight.to_be_bytes();
    let [s0, s1] = sign.to_be_bytes();
    let [d0, d1] = scale.to_be_bytes();
    [n0, n1, w0, w1, s0, s1, d0, d1]
}

/// Appends the bytes of the digits, for which there is room.
fn extend_by_digits(digits: &[u16], out: &mut BytesMut)
    requires { 2 * length digits.now ≤ out.old.spare }
    ensures items { out.new.items ≡ out.old.items ++ digit_bytes digits.now }
    ensures spare { out.new.spare + 2 * length digits.now ≡ out.old.spare }
{
    for digit in digits {
        out.extend_reserved(&digit.to_be_bytes());
    }
}
