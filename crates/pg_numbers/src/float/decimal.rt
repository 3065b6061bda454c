//! The shortest decimal of a number, as PostgreSQL chooses it.
//!
//! `ryu` gives the shortest decimal that reads back as the number. That decimal may lie halfway
//! between two numbers: then the rule for ties reads it back. PostgreSQL does not use such a
//! decimal: it writes `9.999999999999999e+22` if `ryu` writes `1e23`.
ghost use Rattle.std.specs.Float.{NotNan};

use ryu::Float;

/// The number `digits * 10 ^ exponent`.
#[derive(Clone, Copy)]
pub(crate) struct Decimal {
    pub(crate) digits: u64,
    pub(crate) exponent: i32,
}

/// The number `significand * 2 ^ exponent`, where that is an integer.
#[derive(Clone, Copy)]
pub(crate) struct Binary {
    significand: u64,
    exponent: u64,
}

/// Returns the decimal of a numeral, without its sign. The last digit is not 0, except if the
/// number is zero: then the digits are one 0.
pub(crate) fn decimal_of(numeral: &str) -> Decimal {
    let (number, exponent) = numeral.split_once('e').unwrap_or((numeral, "0"));
    let mut digits = 0u64;
    let mut exponent: i32 = exponent.parse().unwrap_or(0);
    let mut is_fraction = false;
    for byte in number.bytes() {
        if byte == b'.' {
            is_fraction = true;
        } else if byte.is_ascii_digit() {
            digits = digits
                .saturating_mul(10)
                .saturating_add(u64::from(byte - b'0'));
            exponent = exponent.saturating_sub(i32::from(is_fraction));
        }
    }
    without_zeros(Decimal { digits, exponent })
}

/// Returns the same number without zeros at the end of its digits.
fn without_zeros(decimal: Decimal) -> Decimal {
    let Decimal {
        mut digits,
        mut exponent,
    } = decimal;
    if digits == 0 {
        return Decimal {
            digits,
            exponent: 0,
        };
    }
    for _ in 0..20 {
        if digits % 10 != 0 {
            break;
        }
        digits /= 10;
        exponent = exponent.saturating_add(1);
    }
    Decimal { digits, exponent }
}

/// Returns the significand and the exponent of a number, without its sign.
pub(crate) fn size_of<F: Float>(x: F) -> Binary
    requires { NotNan (F.value x) }
{
    let bits = x.raw_bits() & (F::SIGN_BIT - 1);
    let hidden = F::INFINITY_BITS & F::INFINITY_BITS.wrapping_neg();
    Binary {
        significand: bits % hidden + hidden,
        exponent: (bits / hidden).saturating_sub(1 + F::LOWEST),
    }
}

/// Given the shortest decimal that reads back as the number, returns the shortest one that is
/// nearer to it than to any other number.
///
/// The two differ only where the number is an integer, and the decimal has fewer digits than it.
pub(crate) fn nearer(decimal: Decimal, number: Binary) -> Decimal {
    let Some(is_above) = halfway(decimal, number) else {
        return decimal;
    };
    let twos = decimal.digits.trailing_zeros();
    let zeros = decimal.exponent.unsigned_abs();
    for more in 1..=zeros {
        // This is the distance of the number from the decimal if that has `more` digits more.
        let numerator = 1u128.checked_shl(twos + more).unwrap_or(0);
        let distance = nearest(numerator, 5u128.saturating_pow(zeros - more));
        if distance != 0 {
            let digits = decimal.digits.saturating_mul(10u64.saturating_pow(more));
            return Decimal {
                digits: if is_above {
                    digits.saturating_sub(distance)
                } else {
                    digits.saturating_add(distance)
                },
                exponent: (zeros - more) as i32,
            };
        }
    }
    decimal
}

/// If the decimal is halfway to an adjacent number, returns whether it is above the number.
///
/// Then it is `(2 * significand + 1) * 2 ^ (exponent - 1)` if it is above, and the same with `- 1`
/// if it is below.
fn halfway(decimal: Decimal, number: Binary) -> Option<bool> {
    let fives = 5u64.checked_pow(u32::try_from(decimal.exponent).ok()?)?;
    let twos = decimal.digits.trailing_zeros();
    let odd = decimal.digits.checked_shr(twos)?.checked_mul(fives)?;
    if u64::from(twos) + decimal.exponent as u64 + 1 != number.exponent {
        return None;
    }
    let double = number.significand.saturating_mul(2);
    if odd == double.saturating_add(1) {
        Some(true)
    } else if odd.saturating_add(1) == double {
        Some(false)
    } else {
        None
    }
}

/// The integer nearest to a fraction.
fn nearest(numerator: u128, denominator: u128) -> u64 {
    let half_up = numerator.saturating_mul(2).saturating_add(denominator);
    match half_up.checked_div(denominator.saturating_mul(2)) {
        Some(quotient) => u64::try_from(quotient).unwrap_or(u64::MAX),
        None => 0,
    }
}
