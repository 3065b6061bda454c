//! UUIDs are read back as themselves.
ghost use Rattle.std.specs.Prelude.{◌≡◌, refl};
ghost use Rattle.postgres_types.specs.Laws.FixedBytesBack.{fixed_bytes_lawful};
ghost use Rattle.postgres_types.specs.ReadingBack.{BackKept};

use crate::paired::Paired;
use uuid::Uuid;

/// A UUID is read back as itself.
impl<'a> Paired<'a> for Uuid {
    ghost back = { λ _. BackKept (λ v w. v ≡ w) };

    ghost types = { λ _. refl };

    ghost lawful = { λ _ _. fixed_bytes_lawful 16 };
}
