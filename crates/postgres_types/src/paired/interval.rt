//! Intervals are read back as themselves.
ghost use Rattle.std.specs.Prelude.{◌≡◌, refl};
ghost use Rattle.postgres_types.specs.Laws.IntervalBack.{interval_lawful};
ghost use Rattle.postgres_types.specs.ReadingBack.{BackKept};

use crate::paired::Paired;
use pg_base::interval::Interval;

/// An interval is read back as itself, part by part.
impl<'a> Paired<'a> for Interval {
    ghost back = { λ _. BackKept (λ v w. v ≡ w) };

    ghost types = { λ _. refl };

    ghost lawful = { λ _ _. interval_lawful };
}
