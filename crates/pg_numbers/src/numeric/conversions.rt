//! Reading and writing NUMERIC.
ghost use Rattle.std.specs.Prelude.{◌≡◌, true};
ghost use Rattle.pg_types.specs.Content.{content};
ghost use Rattle.postgres_types.specs.Conversion.{BackKept, NullAlone, codes, equal_equivalence, refl};
ghost use Rattle.pg_numbers.specs.Laws.Numeric.{numeric_lawful, numeric_single};
ghost use Rattle.pg_numbers.specs.NumericCells.{ReadsNumeric, accepted_numeric, wire_numeric};

use super::Numeric;
use super::cell::{numeric_from_sql, numeric_to_sql};
use crate::catalog::has_oid;
use postgres_types::private::BytesMut;
use postgres_types::{Fault, Format, FromSql, IsNull, Paired, ToSql, Type, check_type};
use std::alloc::Global;

/// Whether the type is NUMERIC.
fn is_numeric(ty: &Type) -> bool
    ensures { result ≡ accepted_numeric (content ty.now) }
{
    has_oid(1700, ty)
}

/// Reads NUMERIC: the number of digits, the weight of the first, the sign, the scale and the
/// base-10,000 digits, each in 2 bytes, big-endian (`numeric_recv`).
///
/// The checks, in this order: fewer than 8 bytes are refused with `Size`; a sign other than 0 and
/// 0x4000 (numbers), 0xC000 (NaN), 0xD000 and 0xF000 (infinities) with `User`; a scale greater than
/// 16,383 with `User`; a length that does not fit the number of digits with `Size`; and a digit
/// greater than 9,999 with `User`. NULL is refused with `WasNull`.
///
/// As in the server, decimal digits that exceed the scale are truncated, zeros before the first
/// digit and after the last one are removed, and a negative zero is zero. The values of NaN and the
/// infinities do not depend on the other fields.
impl<'a> FromSql<'a> for Numeric {
    ghost same = { λ v w. v ≡ w };

    ghost accepted = { accepted_numeric };

    ghost reads = { λ _. ReadsNumeric };

    ghost memory_free = { NullAlone };

    ghost equivalence = { equal_equivalence };

    ghost single = { λ _ _. numeric_single };

    fn from_sql(alloc: Global, _ty: &Type, raw: &'a [u8]) -> Result<Numeric, Fault> {
        numeric_from_sql(alloc, raw)
    }

    fn from_sql_null(_alloc: Global, _ty: &Type) -> Result<Numeric, Fault> {
        Err(Fault::WasNull)
    }

    fn accepts(ty: &Type) -> bool {
        is_numeric(ty)
    }
}

/// Writes NUMERIC: the number of digits, the weight of the first, the sign, the scale and the
/// base-10,000 digits, each in 2 bytes, big-endian (`numeric_send`). NaN and the infinities have no
/// digits and the weight 0. The scale of NaN is 0, and that of the infinities is 32.
impl ToSql for Numeric {
    ghost accepted = { accepted_numeric };

    ghost name = { codes "Numeric" };

    ghost wire = { λ _. wire_numeric };

    ghost by_room = { λ _. Unit {0} };

    ghost refuses_memory_free = { true };

    fn to_sql(&self, _alloc: Global, _ty: &Type, out: &mut BytesMut) -> Result<IsNull, Fault> {
        numeric_to_sql(self, out)?;
        Ok(IsNull::No)
    }

    fn accepts(ty: &Type) -> bool {
        is_numeric(ty)
    }

    fn to_sql_checked(
        &self,
        alloc: Global,
        ty: &Type,
        out: &mut BytesMut,
    ) -> Result<IsNull, Fault> {
        check_type(<Numeric as ToSql>::accepts(ty), ty, "Numeric")?;
        self.to_sql(alloc, ty, out)
    }

    fn encode_format(&self, _ty: &Type) -> Format {
        Format::Binary
    }
}

/// A value of NUMERIC is read back as itself, with its scale.
impl<'a> Paired<'a> for Numeric {
    ghost back = { λ _. BackKept (λ v w. v ≡ w) };

    ghost types = { λ _. refl };

    ghost lawful = { λ _ _. numeric_lawful };
}
