//! Equality and order by value.
ghost use Rattle.std.specs.Prelude.{◌≡◌};
ghost use Rattle.std.proofs.Common.{rules};
ghost use Rattle.std.specs.Cmp.{partial_equiv_from_equiv, partial_order_from_total};
ghost use Rattle.std.proofs.lemmas.Cmp.{eq_by_cmp_equiv};
ghost use Rattle.std.specs.Cmp.Rules.{comparing};
ghost use Rattle.std.specs.Ordering.{as_partial_cmp, eq_by_cmp};
ghost use Rattle.pg_numbers.specs.Laws.NumericOrder.{number_total, numeric_total};
ghost use Rattle.pg_numbers.specs.NumericOrder.{magnitude_cmp, number_cmp, numeric_cmp, sign_rank, value_rank};

use super::{Decimal, Numeric};
use std::cmp::Ordering;

/// Numbers are equal if their values are: the scales are not compared.
impl PartialEq for Decimal {
    ghost eq = { eq_by_cmp number_cmp };

    ghost laws = { partial_equiv_from_equiv (eq_by_cmp_equiv number_total) };

    fn eq(&self, other: &Decimal) -> bool {
        self.cmp(other).is_eq()
    }
}

impl Eq for Decimal {
    ghost laws = { eq_by_cmp_equiv number_total };
}

/// The order is by value: the scales are not compared.
impl Ord for Decimal {
    ghost cmp = { number_cmp };

    ghost total = { number_total };

    ghost matches_partial_cmp = { Prim.search (comparing, rules) };

    ghost matches_eq = { Prim.search (comparing, rules) };

    fn cmp(&self, other: &Decimal) -> Ordering {
        match sign_rank(self).cmp(&sign_rank(other)) {
            Ordering::Equal if self.is_negative() => magnitude_cmp(other, self),
            Ordering::Equal => magnitude_cmp(self, other),
            unequal => unequal,
        }
    }
}

impl PartialOrd for Decimal {
    ghost partial_cmp = { as_partial_cmp number_cmp };

    ghost laws = { partial_order_from_total number_total };

    fn partial_cmp(&self, other: &Decimal) -> Option<Ordering> {
        Some(self.cmp(other))
    }
}

/// Returns the rank of a number's sign.
fn sign_rank(v: &Decimal) -> u8
    ensures { result ≡ sign_rank v.now }
{
    if v.is_negative() {
        0
    } else if v.digits().is_empty() {
        1
    } else {
        2
    }
}

/// Compares absolute values.
fn magnitude_cmp(a: &Decimal, b: &Decimal) -> Ordering
    ensures { result ≡ magnitude_cmp a.now b.now }
{
    a.weight().cmp(&b.weight()).then(a.digits().cmp(b.digits()))
}

/// Numbers are equal if their values are: the scales are not compared. NaN equals itself.
impl PartialEq for Numeric {
    ghost eq = { eq_by_cmp numeric_cmp };

    ghost laws = { partial_equiv_from_equiv (eq_by_cmp_equiv numeric_total) };

    fn eq(&self, other: &Numeric) -> bool {
        self.cmp(other).is_eq()
    }
}

impl Eq for Numeric {
    ghost laws = { eq_by_cmp_equiv numeric_total };
}

/// The order is `-Infinity`, the numbers by value, `Infinity`, NaN (`cmp_numerics`).
impl Ord for Numeric {
    ghost cmp = { numeric_cmp };

    ghost total = { numeric_total };

    ghost matches_partial_cmp = { Prim.search (comparing, rules) };

    ghost matches_eq = { Prim.search (comparing, rules) };

    fn cmp(&self, other: &Numeric) -> Ordering {
        match (self, other) {
            (Numeric::Finite(a), Numeric::Finite(b)) => a.cmp(b),
            _ => value_rank(self).cmp(&value_rank(other)),
        }
    }
}

impl PartialOrd for Numeric {
    ghost partial_cmp = { as_partial_cmp numeric_cmp };

    ghost laws = { partial_order_from_total numeric_total };

    fn partial_cmp(&self, other: &Numeric) -> Option<Ordering> {
        Some(self.cmp(other))
    }
}

/// Returns the rank of a value.
fn value_rank(v: &Numeric) -> u8
    ensures { result ≡ value_rank v.now }
{
    match v {
        Numeric::NegativeInfinity => 0,
        Numeric::Finite(_) => 1,
        Numeric::Infinity => 2,
        Numeric::NaN => 3,
    }
}
