//! Reading boxes back.
ghost use Rattle.std.specs.Int.{w32, w64};
ghost use Rattle.postgres_types.specs.Laws.BoxBack.{box_finite, box_lawful};
ghost use Rattle.postgres_types.specs.ReadingBack.{BackBox};

use crate::paired::{Finite, Paired};

/// A box is read back as a box of what the value inside is read back as, or as `WasNull` if that
/// value is written as NULL.
impl<'a, T: Paired<'a>> Paired<'a> for Box<T> {
    ghost back = { λ ty. BackBox (λ v. v.value) (T.wire ty) (T.back ty) };

    ghost types = { T.types };

    ghost lawful = { λ ty ok. box_lawful (λ v. v.value) T.same (T.reads ty) (T.wire ty) (T.back ty) (T.lawful ty ok) };
}

/// Bytes that are not an infinity give a box whose value is not written as one.
impl<'a, T: Finite<'a>> Finite<'a> for Box<T> {
    ghost dates = { λ ty date ok. box_finite (λ v. v.value) w32 (T.reads ty) (T.wire ty) (T.dates ty date ok) };

    ghost timestamps = { λ ty timestamp ok. box_finite (λ v. v.value) w64 (T.reads ty) (T.wire ty)
        (T.timestamps ty timestamp ok) };
}
