//! The equality and the order of PostgreSQL: -0 equals 0, NaN equals NaN, and NaN is greater than
//! each number.
ghost use Rattle.std.specs.Prelude.{◌≡◌, Some, from_bits};
ghost use Rattle.std.specs.Cmp.{eq_by_cmp_equiv, on_total, partial_equiv_from_equiv, partial_order_from_total};
ghost use Rattle.std.specs.Float.{binary32, binary64, float_key};
ghost use Rattle.std.specs.Float.Cmp.{same_key};
ghost use Rattle.std.specs.Hash as fed;
ghost use Rattle.std.specs.Ordering.{is_eq};
ghost use Rattle.std.proofs.Common.{ap, rules};
ghost use Rattle.std.proofs.lemmas.Float.{nan_last};
ghost use Rattle.pg_numbers.specs.Floats.{float_cmp};

use super::{Float4, Float8};
use std::cmp::{OrderedFloat, Ordering};
use std::hash::{Hash, Hasher};

/// Values are equal if their numbers are, and NaN equals NaN (`float4eq`).
impl PartialEq for Float4 {
    ghost eq = { λ v w. is_eq (float_cmp binary32 v w) };

    ghost laws = { partial_equiv_from_equiv (eq_by_cmp_equiv (on_total (from_bits binary32) nan_last)) };

    fn eq(&self, other: &Float4) -> bool {
        self.cmp(other).is_eq()
    }
}

impl Eq for Float4 {
    ghost laws = { eq_by_cmp_equiv (on_total (from_bits binary32) nan_last) };
}

impl PartialOrd for Float4 {
    ghost partial_cmp = { λ v w. Some (float_cmp binary32 v w) };

    ghost laws = { partial_order_from_total (on_total (from_bits binary32) nan_last) };

    fn partial_cmp(&self, other: &Float4) -> Option<Ordering> {
        Some(self.cmp(other))
    }
}

/// The order of a B-tree index (`btfloat4cmp`): the numbers in their order, and then NaN.
impl Ord for Float4 {
    ghost cmp = { float_cmp binary32 };

    ghost total = { on_total (from_bits binary32) nan_last };

    ghost matches_partial_cmp = { Prim.search rules };

    ghost matches_eq = { Prim.search rules };

    fn cmp(&self, other: &Float4) -> Ordering {
        OrderedFloat(f32::from(*self)).cmp(&OrderedFloat(f32::from(*other)))
    }
}

/// Equal values have the same hash.
impl Hash for Float4 {
    ghost hash_input = { λ v. fed.u32 (float_key binary32 (from_bits binary32 v)) };

    ghost respects_eq = { λ v w h. ap fed.u32 (same_key binary32 (from_bits binary32 v) (from_bits binary32 w) h) };

    fn hash<H: Hasher>(&self, state: &mut H) {
        OrderedFloat(f32::from(*self)).hash(state);
    }
}

/// Values are equal if their numbers are, and NaN equals NaN (`float8eq`).
impl PartialEq for Float8 {
    ghost eq = { λ v w. is_eq (float_cmp binary64 v w) };

    ghost laws = { partial_equiv_from_equiv (eq_by_cmp_equiv (on_total (from_bits binary64) nan_last)) };

    fn eq(&self, other: &Float8) -> bool {
        self.cmp(other).is_eq()
    }
}

impl Eq for Float8 {
    ghost laws = { eq_by_cmp_equiv (on_total (from_bits binary64) nan_last) };
}

impl PartialOrd for Float8 {
    ghost partial_cmp = { λ v w. Some (float_cmp binary64 v w) };

    ghost laws = { partial_order_from_total (on_total (from_bits binary64) nan_last) };

    fn partial_cmp(&self, other: &Float8) -> Option<Ordering> {
        Some(self.cmp(other))
    }
}

/// The order of a B-tree index (`btfloat8cmp`): the numbers in their order, and then NaN.
impl Ord for Float8 {
    ghost cmp = { float_cmp binary64 };

    ghost total = { on_total (from_bits binary64) nan_last };

    ghost matches_partial_cmp = { Prim.search rules };

    ghost matches_eq = { Prim.search rules };

    fn cmp(&self, other: &Float8) -> Ordering {
        OrderedFloat(f64::from(*self)).cmp(&OrderedFloat(f64::from(*other)))
    }
}

/// Equal values have the same hash.
impl Hash for Float8 {
    ghost hash_input = { λ v. fed.u64 (float_key binary64 (from_bits binary64 v)) };

    ghost respects_eq = { λ v w h. ap fed.u64 (same_key binary64 (from_bits binary64 v) (from_bits binary64 w) h) };

    fn hash<H: Hasher>(&self, state: &mut H) {
        OrderedFloat(f64::from(*self)).hash(state);
    }
}
