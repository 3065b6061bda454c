//! Byte strings are read back as themselves.
ghost use Rattle.std.specs.Prelude.{◌≡◌, refl};
ghost use Rattle.postgres_types.specs.Laws.TextBack.{bytes_lawful};
ghost use Rattle.postgres_types.specs.ReadingBack.{BackKept};

use crate::paired::Paired;

/// Byte strings are read back as themselves.
impl<'a> Paired<'a> for &'a [u8] {
    ghost back = { λ _. BackKept (λ s t. s.now ≡ t.now) };

    ghost types = { λ _. refl };

    ghost lawful = { λ _ _. bytes_lawful (λ s. s.now) };
}

/// Byte strings are read back as themselves.
impl<'a> Paired<'a> for Vec<u8> {
    ghost back = { λ _. BackKept (λ s t. s.items ≡ t.items) };

    ghost types = { λ _. refl };

    ghost lawful = { λ _ _. bytes_lawful (λ s. s.items) };
}
