//! Numbers in decimal digits.

ghost use Rattle.std.specs.Prelude.{◌≡◌, ◌<◌, ◌≤◌, ◌++◌, ◌∷◌, IfSome, OnOk, drop, replicate, true};
ghost use Rattle.std.specs.Fmt.{digit_glyph, digits};
ghost use Rattle.pg_calendar.specs.Texts.{fraction_text, padded_text, without_zeros};

use itoa::{Buffer, Integer};
use pg_calendar::{len_without_zeros, two_digits};
use std::alloc::AllocError;

/// Appends the number.
pub fn push_number<I: Integer>(number: I, out: &mut Vec<u8>) -> Result<(), AllocError>
    ensures { OnOk result (out.new.items ≡ out.old.items ++ I.text number) }
{
    let mut buffer = Buffer::new();
    out.extend_from_slice(buffer.format(number).as_bytes())
}

/// Appends the number in at least `width` digits, padded with zeros.
pub fn push_padded(number: u64, width: usize, out: &mut Vec<u8>) -> Result<(), AllocError>
    ensures { OnOk result (out.new.items ≡ out.old.items ++ padded_text width number) }
{
    let mut buffer = Buffer::new();
    let digits = buffer.format(number).as_bytes();
    push_zeros(width.saturating_sub(digits.len()), out)?;
    out.extend_from_slice(digits)
}

/// Appends `count` zeros.
fn push_zeros(count: usize, out: &mut Vec<u8>) -> Result<(), AllocError>
    ensures { OnOk result (out.new.items ≡ out.old.items ++ replicate count 48) }
{
    for place in 0..count {
        out.push(b'0')?;
    }
    Ok(())
}

/// Appends a decimal point and the millionths without trailing zeros; nothing if there are none.
#[inline(always)]
pub fn push_fraction(millionths: u32, out: &mut Vec<u8>) -> Result<(), AllocError>
    ensures { OnOk result (out.new.items ≡ out.old.items ++ fraction_text millionths) }
{
    if millionths == 0 {
        return Ok(());
    }
    let Some(text) = short_fraction(millionths) else {
        return push_long_fraction(millionths, out);
    };
    let end = out.len() + len_without_zeros(&text);
    // LLVM copies as many bytes as it knows without a call.
    out.extend_from_slice(&text)?;
    out.truncate(end);
    Ok(())
}

/// Returns a decimal point and the six digits of the millionths; `None` if they have more.
fn short_fraction(millionths: u32) -> Option<[u8; 7]>
    ensures { IfSome result (λ text. text ≡ 46 ∷ padded_text 6 millionths) }
{
    let (d0, d1) = two_digits(millionths / 10_000)?;
    let (d2, d3) = two_digits(millionths / 100 % 100)?;
    let (d4, d5) = two_digits(millionths % 100)?;
    Some([b'.', d0, d1, d2, d3, d4, d5])
}

/// Appends a decimal point and any millionths without trailing zeros.
fn push_long_fraction(millionths: u32, out: &mut Vec<u8>) -> Result<(), AllocError>
    ensures { OnOk result (out.new.items ≡ out.old.items ++ 46 ∷ without_zeros (padded_text 6 millionths)) }
{
    out.push(b'.')?;
    let start = out.len();
    push_padded(u64::from(millionths), 6, out)?;
    let len = len_without_zeros(&out.as_slice()[start..]);
    out.truncate(start + len);
    Ok(())
}

/// Appends the number in upper-case hexadecimal digits, without leading zeros.
pub fn push_upper_hex(number: u64, out: &mut Vec<u8>) -> Result<(), AllocError>
    ensures { OnOk result (out.new.items ≡ out.old.items ++ digits 16 true number) }
{
    let mut buffer = [0; 64];
    let start = write_upper_hex(number, &mut buffer);
    out.extend_from_slice(&buffer[start..])
}

/// Writes the digits at the end of the buffer, and returns where they start.
fn write_upper_hex(number: u64, buffer: &mut [u8; 64]) -> usize
    ensures bound { result ≤ 64 }
    ensures value { drop result buffer.new ≡ digits 16 true number }
{
    let mut start = 64;
    let mut rest = number;
    while start > 0 {
        start -= 1;
        buffer[start] = upper_hex_digit((rest % 16) as u8);
        rest /= 16;
        if rest == 0 {
            break;
        }
    }
    start
}

/// Returns the digit of a number below 16.
fn upper_hex_digit(number: u8) -> u8
    requires { number < 16 }
    ensures { result ≡ digit_glyph true number }
{
    if number < 10 {
        b'0' + number
    } else {
        b'A' + (number - 10)
    }
}
