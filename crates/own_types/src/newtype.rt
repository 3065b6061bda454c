//! A newtype over a plain format: days since 2000-01-01, sent as DATE.
ghost use Rattle.std.specs.Prelude.{◌≡◌};
ghost use Rattle.postgres_types.specs.Conversion.{BackKept, Date, Equal, EveryCell, ReadsSigned, ReadsThrough};
ghost use Rattle.postgres_types.specs.Conversion.{Through, codes, content_equivalence, int4_lawful, int4_single};
ghost use Rattle.postgres_types.specs.Conversion.{is_row, refl, signed_finite, through_lawful, through_single, w32};
ghost use Rattle.postgres_types.specs.Conversion.{w64, wire_signed};

use postgres_types::protocol::{int4_from_sql, int4_to_sql};
use postgres_types::{
    BytesMut, Fault, Finite, Format, FromSql, IsNull, Paired, ToSql, Type, check_type,
};
use std::alloc::Global;

/// Days since 2000-01-01.
#[derive(Debug, Clone, Copy, PartialEq, Eq)]
pub struct Days(pub i32);

impl<'a> FromSql<'a> for Days {
    ghost same = { λ v w. v.0 ≡ w.0 };

    ghost accepted = { is_row Date };

    ghost reads = { λ _. ReadsThrough (λ v. v.0) (ReadsSigned w32) };

    ghost memory_free = { EveryCell };

    ghost equivalence = { content_equivalence (λ v. v.0) };

    ghost single = { λ _ _. through_single (λ v. v.0) Equal (ReadsSigned w32) int4_single };

    fn from_sql(_alloc: Global, _ty: &Type, raw: &'a [u8]) -> Result<Days, Fault> {
        Ok(Days(int4_from_sql(raw)?))
    }

    fn from_sql_null(_alloc: Global, _ty: &Type) -> Result<Days, Fault> {
        Err(Fault::WasNull)
    }

    fn accepts(ty: &Type) -> bool {
        ty.is(&Type::DATE)
    }
}

impl ToSql for Days {
    ghost accepted = { is_row Date };

    ghost name = { codes "Days" };

    ghost wire = { λ _ v. wire_signed w32 v.0 };

    ghost by_room = { λ _. Unit {0} };

    fn to_sql(&self, alloc: Global, _ty: &Type, out: &mut BytesMut) -> Result<IsNull, Fault> {
        int4_to_sql(alloc, self.0, out)?;
        Ok(IsNull::No)
    }

    fn accepts(ty: &Type) -> bool {
        ty.is(&Type::DATE)
    }

    fn to_sql_checked(
        &self,
        alloc: Global,
        ty: &Type,
        out: &mut BytesMut,
    ) -> Result<IsNull, Fault> {
        check_type(<Days as ToSql>::accepts(ty), ty, "Days")?;
        self.to_sql(alloc, ty, out)
    }

    fn encode_format(&self, _ty: &Type) -> Format {
        Format::Binary
    }
}

impl<'a> Paired<'a> for Days {
    ghost back = { λ _ v. Through (λ w. w.0) (BackKept Equal v.0) };

    ghost types = { λ _. refl };

    ghost lawful = { λ _ _. through_lawful (λ v. v.0) (ReadsSigned w32) Equal (wire_signed w32)
        (BackKept Equal) int4_lawful };
}

impl<'a> Finite<'a> for Days {
    ghost dates = { λ _ _ _ b v. signed_finite w32 w32 b v.0 };

    ghost timestamps = { λ _ _ _ b v. signed_finite w64 w32 b v.0 };
}
