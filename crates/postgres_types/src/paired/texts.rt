//! Texts are read back as themselves.
ghost use Rattle.std.specs.Prelude.{◌≡◌, refl, string_bytes};
ghost use Rattle.std.specs.Box.{boxed_str_bytes};
ghost use Rattle.std.specs.Cow.{cow_str_bytes};
ghost use Rattle.pg_base.specs.Texts.{has_version};
ghost use Rattle.postgres_types.specs.Laws.TextBack.{text_lawful};
ghost use Rattle.postgres_types.specs.ReadingBack.{BackKept};

use crate::paired::Paired;
use std::borrow::CowStr;
use std::boxed::BoxedStr;

/// A text is read back as itself, whether its cell begins with a version or not.
impl<'a> Paired<'a> for &'a str {
    ghost back = { λ _. BackKept (λ s t. s.now ≡ t.now) };

    ghost types = { λ _. refl };

    ghost lawful = { λ ty _. text_lawful (λ s. s.now) (has_version ty) };
}

/// A text is read back as itself, always borrowed, whether its cell begins with a version or not.
impl<'a> Paired<'a> for CowStr<'a> {
    ghost back = { λ _. BackKept (λ s t. cow_str_bytes s ≡ cow_str_bytes t) };

    ghost types = { λ _. refl };

    ghost lawful = { λ ty _. text_lawful cow_str_bytes (has_version ty) };
}

/// A text is read back as itself, whether its cell begins with a version or not.
impl<'a> Paired<'a> for String {
    ghost back = { λ _. BackKept (λ s t. string_bytes s ≡ string_bytes t) };

    ghost types = { λ _. refl };

    ghost lawful = { λ ty _. text_lawful string_bytes (has_version ty) };
}

/// A text is read back as itself, whether its cell begins with a version or not.
impl<'a> Paired<'a> for BoxedStr {
    ghost back = { λ _. BackKept (λ s t. boxed_str_bytes s ≡ boxed_str_bytes t) };

    ghost types = { λ _. refl };

    ghost lawful = { λ ty _. text_lawful boxed_str_bytes (has_version ty) };
}
