//! Conversions between numbers and integers.
ghost use Rattle.std.specs.Prelude.{◌≡◌, ◌*◌, ◌^◌, ◌≤◌, ◌+ℤ◌, ◌≤ℤ◌, ℕ, negsuc, pos, true};
ghost use Rattle.std.specs.Prelude.{FitsSigned, IfOk, IfErr, MatchOption, int_lt, unsigned_abs};
ghost use Rattle.std.specs.Int.{w64, w128};
ghost use Rattle.pg_types.specs.declared.fault.Fault.TheVariants.{Memory};
ghost use Rattle.pg_numbers.specs.Numeric.{HasNoInteger, IsInteger, are_digits, signed, units, units_of};

use super::Decimal;
use postgres_types::Fault;
use std::alloc::Global;

impl Decimal {
    /// Creates the number `n`, of scale 0. The only fault is `Memory`.
    pub fn from_i64(alloc: Global, n: i64) -> Result<Decimal, Fault>
        ensures negative { IfOk result (λ v. v.negative ≡ int_lt n (pos 0)) }
        ensures value { IfOk result (λ v. units_of v ≡ unsigned_abs n) }
        ensures scale { IfOk result (λ v. v.scale ≡ 0) }
        ensures refused { IfErr result (λ fault. fault ≡ Memory) }
    {
        Decimal::from_i128(alloc, n.into())
    }

    /// Creates the number `n`, of scale 0. The only fault is `Memory`.
    pub fn from_i128(alloc: Global, n: i128) -> Result<Decimal, Fault>
        ensures negative { IfOk result (λ v. v.negative ≡ int_lt n (pos 0)) }
        ensures value { IfOk result (λ v. units_of v ≡ unsigned_abs n) }
        ensures scale { IfOk result (λ v. v.scale ≡ 0) }
        ensures refused { IfErr result (λ fault. fault ≡ Memory) }
    {
        let digits = digits_of(n.unsigned_abs());
        let number = Decimal::new(alloc, n < 0, 9, 0, &digits)?;
        // Its digits are those of a number.
        let _ = number.digits();
        Ok(number)
    }

    /// Returns the number as an integer, or `None` if it has a fractional part or does not fit in
    /// an `i64`.
    pub fn to_i64(&self) -> Option<i64>
        ensures { MatchOption result (HasNoInteger w64 self.now) (λ n. IsInteger self.now n) }
    {
        let integer = self.to_i128()?;
        i64::try_from(integer).ok()
    }

    /// Returns the number as an integer, or `None` if it has a fractional part or does not fit in
    /// an `i128`.
    pub fn to_i128(&self) -> Option<i128>
        ensures { MatchOption result (HasNoInteger w128 self.now) (λ n. IsInteger self.now n) }
    {
        let magnitude = magnitude_of(self)?;
        with_sign(self.is_negative(), magnitude)
    }
}

/// Returns the base-10,000 digits of an integer, of which the first has the weight 9.
fn digits_of(n: u128) -> [u16; 10]
    requires { n ≤ 2 ^ 127 }
    ensures digits { are_digits result ≡ true }
    ensures value { units (pos 9) 0 result ≡ n }
{
    [
        (n / 1_000_000_000_000_000_000_000_000_000_000_000_000) as u16,
        (n / 100_000_000_000_000_000_000_000_000_000_000 % 10_000) as u16,
        (n / 10_000_000_000_000_000_000_000_000_000 % 10_000) as u16,
        (n / 1_000_000_000_000_000_000_000_000 % 10_000) as u16,
        (n / 100_000_000_000_000_000_000 % 10_000) as u16,
        (n / 10_000_000_000_000_000 % 10_000) as u16,
        (n / 1_000_000_000_000 % 10_000) as u16,
        (n / 100_000_000 % 10_000) as u16,
        (n / 10_000 % 10_000) as u16,
        (n % 10_000) as u16,
    ]
}

/// The integer of that sign and absolute value, where an `i128` holds it.
fn with_sign(negative: bool, magnitude: u128) -> Option<i128>
    ensures { MatchOption result (FitsSigned w128 (signed negative magnitude) → ⊥)
        (λ n. n ≡ signed negative magnitude) }
{
    if negative {
        0_i128.checked_sub_unsigned(magnitude)
    } else {
        i128::try_from(magnitude).ok()
    }
}

/// Returns the absolute value of a number that is an integer and fits in a `u128`.
fn magnitude_of(v: &Decimal) -> Option<u128>
    ensures { MatchOption result ((n : ℕ) → units_of v.now ≡ n * 10 ^ v.now.scale → 2 ^ 128 ≤ n)
        (λ n. units_of v.now ≡ n * 10 ^ v.now.scale) }
{
    let digits = v.digits();
    let count = integer_digits(v)?;
    if digits.len() > count {
        return None;
    }
    let mut magnitude: u128 = 0;
    for at in 0..count {
        let digit = digits.get(at).copied().unwrap_or(0);
        magnitude = magnitude.checked_mul(10_000)?.checked_add(digit.into())?;
    }
    Some(magnitude)
}

/// Returns how many base-10,000 digits there are before the point.
fn integer_digits(v: &Decimal) -> Option<usize>
    ensures { MatchOption result (v.now.weight ≤ℤ negsuc 1) (λ n. v.now.weight +ℤ pos 1 ≡ pos n) }
{
    let count = i32::from(v.weight()) + 1;
    if count < 0 {
        None
    } else {
        Some(count as usize)
    }
}
