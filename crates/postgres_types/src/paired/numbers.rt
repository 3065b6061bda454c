//! Integers and booleans are read back as themselves.
ghost use Rattle.std.specs.Prelude.{◌≡◌, refl};
ghost use Rattle.std.specs.Int.{w8, w16, w32, w64};
ghost use Rattle.pg_base.proofs.FormatLaws.{char_grammar, int2_grammar, int4_grammar, int8_grammar, unsigned4_grammar};
ghost use Rattle.postgres_types.specs.Laws.NumberBack.{bool_lawful, signed_lawful, unsigned_lawful};
ghost use Rattle.postgres_types.specs.ReadingBack.{BackKept};

use crate::paired::Paired;

/// A boolean is read back as itself.
impl<'a> Paired<'a> for bool {
    ghost back = { λ _. BackKept (λ v w. v ≡ w) };

    ghost types = { λ _. refl };

    ghost lawful = { λ _ _. bool_lawful };
}

/// A number is read back as itself.
impl<'a> Paired<'a> for i8 {
    ghost back = { λ _. BackKept (λ v w. v ≡ w) };

    ghost types = { λ _. refl };

    ghost lawful = { λ _ _. signed_lawful w8 char_grammar };
}

/// A number is read back as itself.
impl<'a> Paired<'a> for i16 {
    ghost back = { λ _. BackKept (λ v w. v ≡ w) };

    ghost types = { λ _. refl };

    ghost lawful = { λ _ _. signed_lawful w16 int2_grammar };
}

/// A number is read back as itself.
impl<'a> Paired<'a> for i32 {
    ghost back = { λ _. BackKept (λ v w. v ≡ w) };

    ghost types = { λ _. refl };

    ghost lawful = { λ _ _. signed_lawful w32 int4_grammar };
}

/// A number is read back as itself.
impl<'a> Paired<'a> for i64 {
    ghost back = { λ _. BackKept (λ v w. v ≡ w) };

    ghost types = { λ _. refl };

    ghost lawful = { λ _ _. signed_lawful w64 int8_grammar };
}

/// A number is read back as itself.
impl<'a> Paired<'a> for u32 {
    ghost back = { λ _. BackKept (λ v w. v ≡ w) };

    ghost types = { λ _. refl };

    ghost lawful = { λ _ _. unsigned_lawful w32 unsigned4_grammar };
}
