//! Reading options back.
ghost use Rattle.std.specs.Int.{w32, w64};
ghost use Rattle.postgres_types.specs.Laws.OptionBack.{option_finite, option_lawful};
ghost use Rattle.postgres_types.specs.ReadingBack.{BackOption};

use crate::paired::{Finite, Paired};

/// `None` is read back as `None`. `Some` is read back as `None` if the value inside is written as
/// NULL, and otherwise as `Some` of what that value is read back as.
impl<'a, T: Paired<'a>> Paired<'a> for Option<T> {
    ghost back = { λ ty. BackOption (T.wire ty) (T.back ty) };

    ghost types = { T.types };

    ghost lawful = { λ ty ok. option_lawful T.same (T.reads ty) (T.wire ty) (T.back ty) (T.lawful ty ok) };
}

/// Bytes that are not an infinity give `Some` of a value that is not written as one.
impl<'a, T: Finite<'a>> Finite<'a> for Option<T> {
    ghost dates = { λ ty date ok. option_finite w32 (T.reads ty) (T.wire ty) (T.dates ty date ok) };

    ghost timestamps = { λ ty timestamp ok. option_finite w64 (T.reads ty) (T.wire ty) (T.timestamps ty timestamp ok) };
}
