//! Reading dates and timestamps that may be infinite back.
ghost use Rattle.std.specs.Prelude.{◌&&◌};
ghost use Rattle.std.proofs.Common.{ap};
ghost use Rattle.std.specs.Int.{w32, w64};
ghost use Rattle.pg_types.specs.declared.types.built_in.BuiltIn.TheVariants.{Date as DateRow};
ghost use Rattle.pg_types.specs.Content.{is_row};
ghost use Rattle.pg_base.specs.Timestamps.{accepts_timestamps};
ghost use Rattle.pg_base.specs.Special.{date_view, timestamp_view};
ghost use Rattle.pg_base.proofs.SpecialLaws.{inside_accepted};
ghost use Rattle.postgres_types.specs.ReadingBack.{BackSpecial};
ghost use Rattle.postgres_types.specs.Laws.SpecialBack.{not_both, row_accepted, special_finite, special_lawful};

use crate::paired::{Finite, Paired};
use pg_base::special::{Date, Timestamp};

/// An infinity is read back as itself. A value is read back as its cell is read: as `WasNull` if it
/// was written as NULL, as `Size` if the cell does not have 4 bytes, as the infinity if it is the
/// cell of one, and otherwise as `Value` of what the value inside is read back as, or as its fault.
impl<'a, T: Finite<'a>> Paired<'a> for Date<T> {
    ghost back = { λ ty v. BackSpecial w32 date_view (T.wire ty) (T.back ty) (date_view v) };

    ghost types = { λ ty. ap (λ inside. is_row DateRow ty && inside) (T.types ty) };

    ghost lawful = { λ ty ok. special_lawful w32 date_view T.same (T.reads ty) (T.wire ty) (T.back ty)
        (T.lawful ty (inside_accepted _ _ ok))
        (T.dates ty (row_accepted _ _ ok) (inside_accepted _ _ ok)) };
}

/// Bytes that are not an infinity give `Value` of a value that is not written as one.
impl<'a, T: Finite<'a>> Finite<'a> for Date<T> {
    ghost dates = { λ ty date ok. special_finite w32 date_view (T.reads ty) (T.wire ty)
        (T.dates ty date (inside_accepted _ _ ok)) };

    ghost timestamps = { λ ty timestamp ok. absurd (not_both ty (row_accepted _ _ ok) timestamp) };
}

/// It is read back as a `Date` is, with a cell of 8 bytes instead of 4.
impl<'a, T: Finite<'a>> Paired<'a> for Timestamp<T> {
    ghost back = { λ ty v. BackSpecial w64 timestamp_view (T.wire ty) (T.back ty) (timestamp_view v) };

    ghost types = { λ ty. ap (λ inside. accepts_timestamps ty && inside) (T.types ty) };

    ghost lawful = { λ ty ok. special_lawful w64 timestamp_view T.same (T.reads ty) (T.wire ty) (T.back ty)
        (T.lawful ty (inside_accepted _ _ ok))
        (T.timestamps ty (row_accepted _ _ ok) (inside_accepted _ _ ok)) };
}

/// Bytes that are not an infinity give `Value` of a value that is not written as one.
impl<'a, T: Finite<'a>> Finite<'a> for Timestamp<T> {
    ghost dates = { λ ty date ok. absurd (not_both ty date (row_accepted _ _ ok)) };

    ghost timestamps = { λ ty timestamp ok. special_finite w64 timestamp_view (T.reads ty) (T.wire ty)
        (T.timestamps ty timestamp (inside_accepted _ _ ok)) };
}
