//! What equality, order, printing and the format of log sequence numbers mean, each as a call whose
//! contract says it.
ghost use Rattle.std.specs.Prelude.{◌≡◌, ◌↔◌, ◌<◌, ◌^◌, ℕ, Some, IsTrue};
ghost use Rattle.std.specs.Int.{w64};
ghost use Rattle.std.specs.Ordering.{nat_cmp};
ghost use Rattle.pg_base.specs.Formats.{IsComplete, IsGrammar};
ghost use Rattle.pg_base.specs.Lsn.{lsn_of, lsn_text};
ghost use Rattle.pg_base.specs.Numbers.{FormUnsigned, first_fault_number};

use super::PgLsn;
use std::cmp::Ordering;

/// Whether two log sequence numbers are equal: as numbers.
pub fn same_position(a: &PgLsn, b: &PgLsn) -> bool
    ensures { IsTrue result ↔ (a.now ≡ b.now) }
{
    *a == *b
}

/// How two log sequence numbers are ordered: as numbers.
pub fn position_order(a: &PgLsn, b: &PgLsn) -> Ordering
    ensures { result ≡ nat_cmp a.now b.now }
{
    a.cmp(b)
}

/// Parsing the text of a log sequence number gives it back.
#[tactic(auto, using(crate::proofs::LsnLemmas::text_parses))]
pub fn position_text_parses()
    ensures { (n : ℕ) → n < 2 ^ 64 → lsn_of (lsn_text n) ≡ Some n }
{}

/// The format of PG_LSN is a grammar, whose checks are complete.
#[tactic(auto, using(crate::proofs::FormatLaws::unsigned8_grammar, crate::proofs::Completeness::lsn_complete))]
pub fn lsn_format()
    ensures grammar { IsGrammar (λ v w. v ≡ w) (FormUnsigned w64) (first_fault_number 8) }
    ensures complete { IsComplete (FormUnsigned w64) (first_fault_number 8) }
{}
