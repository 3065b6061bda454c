//! Bit strings are read back as themselves.
ghost use Rattle.std.specs.Prelude.{◌≡◌, refl};
ghost use Rattle.postgres_types.specs.Laws.BitBack.{bits_lawful};
ghost use Rattle.postgres_types.specs.ReadingBack.{BackKept};

use crate::paired::Paired;
use pg_base::bits::BitVec;

/// A bit string is read back as itself. The padding bits of the last byte are written as 0 and
/// ignored in reading.
impl<'a> Paired<'a> for BitVec {
    ghost back = { λ _. BackKept (λ v w. v ≡ w) };

    ghost types = { λ _. refl };

    ghost lawful = { λ _ _. bits_lawful };
}
