//! Newtypes that are read and written as the value inside.
ghost use Rattle.std.specs.Prelude.{◌≡◌, true};
ghost use Rattle.pg_base.proofs.SamenessLaws.{inside_equivalence};
ghost use Rattle.pg_read.specs.Laws.Reading.{constrained_single, through_single};
ghost use Rattle.pg_read.specs.Views.{Constrained, ReadsConstrained, ReadsThrough, Through};
ghost use Rattle.pg_write.specs.Writing.{wire_constrained};
ghost use Rattle.postgres_types.specs.Laws.ViewBack.{constrained_lawful, through_lawful};

use super::{FromNewtype, Newtype};
use crate::paired::Paired;
use bytes::BytesMut;
use pg_base::fault::Fault;
use pg_base::format::{Format, IsNull};
use pg_base::types::PgType;
use pg_read::from_sql::FromSql;
use pg_write::to_sql::{ToSql, check_type};
use std::alloc::Global;

/// A newtype that is read and written as the value inside.
///
/// It accepts the types that the value inside accepts, and its cell is that of the value inside,
/// NULL included. A `WrongType` has the name of the newtype.
///
/// In reading, a cell that the value inside refuses is refused with its fault, and then a value
/// that does not meet the constraint with the constraint's fault. In writing, the constraint is
/// checked first. An error leaves the buffer's bytes as they were.
#[derive(Debug, PartialEq, Eq, Drop)]
pub struct Transparent<T>(pub T);

impl<'a, T: FromNewtype<'a>> FromSql<'a> for Transparent<T>
where
    T::Inner: FromSql<'a>,
{
    ghost same = { λ v w. T.Inner.same (T.inside v.0) (T.inside w.0) };

    ghost accepted = { T.Inner.FromSql.accepted };

    ghost reads = { λ ty. ReadsThrough (λ v. T.inside v.0) (ReadsConstrained T.meets T.unmet (T.Inner.reads ty)) };

    ghost memory_free = { T.Inner.memory_free };

    ghost equivalence = { inside_equivalence (λ v. T.inside v.0) T.Inner.same T.Inner.equivalence };

    ghost single = { λ ty ok. through_single (λ v. T.inside v.0) T.Inner.same
        (ReadsConstrained T.meets T.unmet (T.Inner.reads ty))
        (constrained_single T.Inner.same T.meets T.unmet T.respects (T.Inner.reads ty) (T.Inner.single ty ok)) };

    fn from_sql(alloc: Global, ty: &PgType, raw: &'a [u8]) -> Result<Transparent<T>, Fault> {
        let inner = T::Inner::from_sql(alloc, ty, raw)?;
        T::check(&inner)?;
        Ok(Transparent(T::new(inner)))
    }

    fn from_sql_null(alloc: Global, ty: &PgType) -> Result<Transparent<T>, Fault> {
        let inner = T::Inner::from_sql_null(alloc, ty)?;
        T::check(&inner)?;
        Ok(Transparent(T::new(inner)))
    }

    fn accepts(ty: &PgType) -> bool {
        <T::Inner as FromSql<'a>>::accepts(ty)
    }
}

impl<T: Newtype> ToSql for Transparent<T> {
    ghost accepted = { T.Inner.ToSql.accepted };

    ghost name = { T.type_name };

    ghost wire = { λ ty v. wire_constrained T.meets T.unmet (T.Inner.wire ty) (T.inside v.0) };

    ghost format = { λ ty v. T.Inner.format ty (T.inside v.0) };

    ghost by_room = { λ v. T.Inner.by_room (T.inside v.0) };

    ghost refuses_memory_free = { true };

    fn to_sql(&self, alloc: Global, ty: &PgType, out: &mut BytesMut) -> Result<IsNull, Fault> {
        let inner = self.0.inner();
        T::check(inner)?;
        inner.to_sql(alloc, ty, out)
    }

    fn accepts(ty: &PgType) -> bool {
        <T::Inner as ToSql>::accepts(ty)
    }

    fn to_sql_checked(
        &self,
        alloc: Global,
        ty: &PgType,
        out: &mut BytesMut,
    ) -> Result<IsNull, Fault> {
        check_type(<Self as ToSql>::accepts(ty), ty, T::name())?;
        self.to_sql(alloc, ty, out)
    }

    fn encode_format(&self, ty: &PgType) -> Format {
        self.0.inner().encode_format(ty)
    }
}

impl<'a, T: FromNewtype<'a>> Paired<'a> for Transparent<T>
where
    T::Inner: Paired<'a>,
{
    ghost back = { λ ty v. Through (λ w. T.inside w.0)
        (Constrained T.meets T.unmet (T.Inner.back ty (T.inside v.0))) };

    ghost types = { T.Inner.types };

    ghost lawful = { λ ty ok. through_lawful (λ v. T.inside v.0) (ReadsConstrained T.meets T.unmet (T.Inner.reads ty))
        T.Inner.same (wire_constrained T.meets T.unmet (T.Inner.wire ty))
        (λ x. Constrained T.meets T.unmet (T.Inner.back ty x))
        (constrained_lawful T.meets T.unmet T.Inner.same (T.Inner.reads ty) (T.Inner.wire ty) T.respects
        (T.Inner.back ty) (T.Inner.lawful ty ok)) };
}
