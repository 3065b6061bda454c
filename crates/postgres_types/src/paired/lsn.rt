//! Log sequence numbers are read back as themselves.
ghost use Rattle.std.specs.Prelude.{◌≡◌, refl};
ghost use Rattle.std.specs.Int.{w64};
ghost use Rattle.pg_base.proofs.FormatLaws.{unsigned8_grammar};
ghost use Rattle.postgres_types.specs.Laws.NumberBack.{unsigned_lawful};
ghost use Rattle.postgres_types.specs.ReadingBack.{BackKept};

use crate::paired::Paired;
use pg_base::lsn::PgLsn;

/// A log sequence number is read back as itself.
impl<'a> Paired<'a> for PgLsn {
    ghost back = { λ _. BackKept (λ v w. v ≡ w) };

    ghost types = { λ _. refl };

    ghost lawful = { λ _ _. unsigned_lawful w64 unsigned8_grammar };
}
