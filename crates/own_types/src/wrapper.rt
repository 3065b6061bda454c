//! A generic wrapper: any value, as a type of its own.
ghost use Rattle.postgres_types.specs.Conversion.{ReadsThrough, Through, codes, inside_equivalence, through_lawful};
ghost use Rattle.postgres_types.specs.Conversion.{through_single};

use postgres_types::{BytesMut, Fault, Format, FromSql, IsNull, Paired, ToSql, Type, check_type};
use std::alloc::Global;

/// A value as a type of its own.
#[derive(Debug, PartialEq, Drop)]
pub struct Tagged<T>(pub T);

impl<'a, T: FromSql<'a>> FromSql<'a> for Tagged<T> {
    ghost same = { λ v w. T.same v.0 w.0 };

    ghost accepted = { T.accepted };

    ghost reads = { λ ty. ReadsThrough (λ v. v.0) (T.reads ty) };

    ghost memory_free = { T.memory_free };

    ghost equivalence = { inside_equivalence (λ v. v.0) T.same T.equivalence };

    ghost single = { λ ty ok. through_single (λ v. v.0) T.same (T.reads ty) (T.single ty ok) };

    fn from_sql(alloc: Global, ty: &Type, raw: &'a [u8]) -> Result<Tagged<T>, Fault> {
        Ok(Tagged(T::from_sql(alloc, ty, raw)?))
    }

    fn from_sql_null(alloc: Global, ty: &Type) -> Result<Tagged<T>, Fault> {
        Ok(Tagged(T::from_sql_null(alloc, ty)?))
    }

    fn accepts(ty: &Type) -> bool {
        T::accepts(ty)
    }
}

impl<T: ToSql> ToSql for Tagged<T> {
    ghost accepted = { T.accepted };

    ghost name = { codes "Tagged" };

    ghost wire = { λ ty v. T.wire ty v.0 };

    ghost format = { λ ty v. T.format ty v.0 };

    ghost by_room = { λ v. T.by_room v.0 };

    fn to_sql(&self, alloc: Global, ty: &Type, out: &mut BytesMut) -> Result<IsNull, Fault> {
        self.0.to_sql(alloc, ty, out)
    }

    fn accepts(ty: &Type) -> bool {
        T::accepts(ty)
    }

    fn to_sql_checked(
        &self,
        alloc: Global,
        ty: &Type,
        out: &mut BytesMut,
    ) -> Result<IsNull, Fault> {
        check_type(<Self as ToSql>::accepts(ty), ty, "Tagged")?;
        self.to_sql(alloc, ty, out)
    }

    fn encode_format(&self, ty: &Type) -> Format {
        self.0.encode_format(ty)
    }
}

impl<'a, T: Paired<'a>> Paired<'a> for Tagged<T> {
    ghost back = { λ ty v. Through (λ w. w.0) (T.back ty v.0) };

    ghost types = { T.types };

    ghost lawful = { λ ty ok. through_lawful (λ v. v.0) (T.reads ty) T.same (T.wire ty) (T.back ty) (T.lawful ty ok) };
}
