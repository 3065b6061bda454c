//! What equality of bit strings and their format mean, each as a call whose contract says it.
ghost use Rattle.std.specs.Prelude.{◌≡◌, ◌↔◌, IsTrue};
ghost use Rattle.pg_base.specs.Bits.{FormBits, first_fault_bits};
ghost use Rattle.pg_base.specs.Formats.{IsComplete, IsGrammar};

use super::BitVec;

/// Whether two bit strings are equal: of the same bits.
#[tactic(auto, using(crate::proofs::BitLemmas::bits_compared))]
pub fn same_bits(a: &BitVec, b: &BitVec) -> bool
    ensures { IsTrue result ↔ (a.now ≡ b.now) }
{
    *a == *b
}

/// The format of BIT and VARBIT is a grammar, whose checks are complete.
#[tactic(auto, using(crate::proofs::BitsLaws::bits_grammar, crate::proofs::CompletenessBits::bits_complete))]
pub fn bits_format()
    ensures grammar { IsGrammar (λ v w. v ≡ w) (FormBits (λ v. v)) first_fault_bits }
    ensures complete { IsComplete (FormBits (λ v. v)) first_fault_bits }
{}
