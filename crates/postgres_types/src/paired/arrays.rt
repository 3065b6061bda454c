//! Reading lists back.
ghost use Rattle.std.specs.Box.{boxed_slice_items};
ghost use Rattle.pg_base.specs.ArrayTypes.{element_of};
ghost use Rattle.pg_read.specs.ArrayReading.{ReadsByElement};
ghost use Rattle.postgres_types.specs.Laws.ArrayBack.{array_lawful, fixed_lawful, same_lists};
ghost use Rattle.postgres_types.specs.ReadingBack.{BackList};

use crate::paired::Paired;
use std::boxed::BoxedSlice;

/// A list is read back as the list of what its elements are read back as, in order, or as the first
/// fault among them: a `Box` of an element that was written as NULL is read back as `WasNull`.
impl<'a, T: Paired<'a>> Paired<'a> for Vec<T> {
    ghost back = { λ ty. ReadsByElement (λ element. BackList (λ v. v.items) (T.back element)) (element_of ty) };

    ghost types = { same_lists T.FromSql.accepted T.ToSql.accepted T.types };

    ghost lawful = { array_lawful (λ v. v.items) T.same T.FromSql.accepted T.reads T.wire T.back T.lawful };
}

/// It is read back as a `Vec` of these elements.
impl<'a, T: Paired<'a>> Paired<'a> for BoxedSlice<T> {
    ghost back = { λ ty. ReadsByElement (λ element. BackList boxed_slice_items (T.back element)) (element_of ty) };

    ghost types = { same_lists T.FromSql.accepted T.ToSql.accepted T.types };

    ghost lawful = { array_lawful boxed_slice_items T.same T.FromSql.accepted T.reads T.wire T.back T.lawful };
}

/// It is read back as a `Vec` of these elements.
impl<'a, T: Paired<'a>, const N: usize> Paired<'a> for [T; N] {
    ghost back = { λ ty. ReadsByElement (λ element. BackList (λ vs. vs) (T.back element)) (element_of ty) };

    ghost types = { same_lists T.FromSql.accepted T.ToSql.accepted T.types };

    ghost lawful = { fixed_lawful (λ vs. vs) T.same T.FromSql.accepted T.reads T.wire T.back T.lawful N };
}
