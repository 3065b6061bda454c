//! What equality and the format of intervals mean, each as a call whose contract says it.
ghost use Rattle.std.specs.Prelude.{◌≡◌, ◌↔◌, IsTrue};
ghost use Rattle.pg_base.specs.Formats.{IsComplete, IsGrammar};
ghost use Rattle.pg_base.specs.Interval.{FormInterval, interval_width};
ghost use Rattle.pg_base.specs.Numbers.{first_fault_number};

use super::Interval;

/// Whether two intervals are equal: of the same microseconds, days and months.
pub fn same_interval(a: &Interval, b: &Interval) -> bool
    ensures { IsTrue result ↔ (a.now ≡ b.now) }
{
    *a == *b
}

/// The format of INTERVAL is a grammar, whose checks are complete.
#[tactic(auto, using(crate::proofs::IntervalLaws::interval_grammar, crate::proofs::IntervalLaws::interval_complete))]
pub fn interval_format()
    ensures grammar { IsGrammar (λ v w. v ≡ w) FormInterval (first_fault_number interval_width) }
    ensures complete { IsComplete FormInterval (first_fault_number interval_width) }
{}
