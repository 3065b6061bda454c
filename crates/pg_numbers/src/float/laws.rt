//! Laws of the texts and the order, each as a function whose contract states it.
ghost use Rattle.std.specs.Prelude.{◌≡◌, IsFalse, IsTrue, Some, false, from_bits, is_nan, to_bits, true};
ghost use Rattle.std.specs.Float.{binary32, binary64};
ghost use Rattle.std.specs.Float.Ieee.{eq, lt};
ghost use Rattle.std.specs.Result.{result_ok};

use super::{Float4, Float8, ParseFloatError};

/// The text of a value is parsed as the value: as the same number, a zero with its sign, or as NaN.
pub fn float4_from_text(v: Float4) -> Result<Float4, ParseFloatError>
    ensures { result_ok result ≡ Some (to_bits binary32 (from_bits binary32 v)) }
{
    v.text().parse::<Float4>()
}

/// The text of a value is parsed as the value: as the same number, a zero with its sign, or as NaN.
pub fn float8_from_text(v: Float8) -> Result<Float8, ParseFloatError>
    ensures { result_ok result ≡ Some (to_bits binary64 (from_bits binary64 v)) }
{
    v.text().parse::<Float8>()
}

/// NaN equals NaN.
pub fn nan_equals_nan(v: Float8, w: Float8) -> bool
    requires v { IsTrue (is_nan (from_bits binary64 v)) }
    requires w { IsTrue (is_nan (from_bits binary64 w)) }
    ensures { result ≡ true }
{
    v == w
}

/// NaN is greater than each number, the infinities included.
pub fn nan_is_greater(v: Float8, w: Float8) -> bool
    requires v { IsTrue (is_nan (from_bits binary64 v)) }
    requires w { IsFalse (is_nan (from_bits binary64 w)) }
    ensures { result ≡ true }
{
    v > w
}

/// Numbers are in the order of IEEE 754, where -0 equals 0.
pub fn numbers_are_ordered(v: Float8, w: Float8) -> (bool, bool)
    requires v { IsFalse (is_nan (from_bits binary64 v)) }
    requires w { IsFalse (is_nan (from_bits binary64 w)) }
    ensures less { result.0 ≡ lt (from_bits binary64 v) (from_bits binary64 w) }
    ensures greater { result.1 ≡ lt (from_bits binary64 w) (from_bits binary64 v) }
{
    (v < w, w < v)
}

/// The two zeros are equal.
#[tactic(auto, using(crate::proofs::FloatOrder::zeros))]
pub fn zeros_are_equal() -> bool
    ensures { result ≡ true }
{
    Float8::from_bits(0x8000_0000_0000_0000) == Float8::from_bits(0)
}
