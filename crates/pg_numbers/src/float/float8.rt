//! FLOAT8.
ghost use Rattle.std.specs.Prelude.{◌≡◌, ℕ, from_bits, is_nan, to_bits, true};
ghost use Rattle.std.specs.Float.{binary64};
ghost use Rattle.std.specs.Int.{w64};
ghost use Rattle.pg_base.proofs.FormatLaws.{unsigned8_grammar};
ghost use Rattle.pg_base.specs.Numbers.{FormUnsigned, ReadsUnsigned, first_fault_number, wire_unsigned};
ghost use Rattle.pg_numbers.specs.Floats.{is_float8, number_of};
ghost use Rattle.postgres_types.specs.Conversion.{BackKept, EveryCell, codes, equal_equivalence, plain_single, refl};
ghost use Rattle.postgres_types.specs.Laws.NumberBack.{unsigned_lawful};

use crate::catalog::has_oid;
use postgres_types::private::BytesMut;
use postgres_types::protocol::{lsn_from_sql as u64_from_sql, lsn_to_sql as u64_to_sql};
use postgres_types::{Fault, Format, FromSql, IsNull, Paired, ToSql, Type, check_type};
use std::alloc::Global;
use std::marker::Model;
use std::num::{f64_from_bits_with_nan, f64_to_bits_with_nan};

/// A value of FLOAT8: the 64 bits of an IEEE 754 number. A NaN has a sign and a payload.
#[derive(Clone, Copy)]
pub struct Float8(u64);

impl Model for Float8 {
    ghost Value = { ℕ };

    ghost view = { λ v. v.0 };

    ghost inverse = { λ bits. record { 0 = bits } };
}

impl Float8 {
    /// Returns the value of these bits: from the most significant bit on, the sign, the exponent
    /// and the fraction.
    pub fn from_bits(bits: u64) -> Float8
        ensures { result ≡ bits }
    {
        Float8(bits)
    }

    /// Returns the bits of the value.
    pub fn to_bits(self) -> u64
        ensures { result ≡ self }
    {
        self.0
    }

    /// Whether the value is NaN, with any sign and payload.
    pub fn is_nan(self) -> bool
        ensures { result ≡ is_nan (from_bits binary64 self) }
    {
        f64_from_bits_with_nan(self.0).is_nan()
    }

    /// Returns the number, which may be an infinity, or `None` if the value is NaN.
    pub fn get(self) -> Option<f64>
        ensures { result ≡ number_of binary64 self }
    {
        let x = f64_from_bits_with_nan(self.0);
        if x.is_nan() { None } else { Some(x) }
    }
}

/// Creates the value of the number. A NaN of Rattle has no sign and no payload: it becomes the
/// quiet NaN whose sign bit is clear, as PostgreSQL writes it.
impl From<f64> for Float8 {
    ghost from_gives = { λ x v. v ≡ to_bits binary64 x };

    fn from(x: f64) -> Float8 {
        Float8(f64_to_bits_with_nan(x))
    }
}

/// Creates the number of the value. A NaN loses its sign and payload.
impl From<Float8> for f64 {
    ghost from_gives = { λ v x. x ≡ from_bits binary64 v };

    fn from(v: Float8) -> f64 {
        f64_from_bits_with_nan(v.0)
    }
}

/// Reads FLOAT8: 8 bytes, the bits of the number, big-endian (`float8recv`). Any other length is
/// refused with `Size`, and NULL with `WasNull`.
///
/// It accepts the type with the OID 701.
impl<'a> FromSql<'a> for Float8 {
    ghost same = { λ v w. v ≡ w };

    ghost accepted = { is_float8 };

    ghost reads = { λ _. ReadsUnsigned w64 };

    ghost memory_free = { EveryCell };

    ghost equivalence = { equal_equivalence };

    ghost single = { λ _ _. plain_single (λ v w. v ≡ w) (FormUnsigned w64) (first_fault_number 8) unsigned8_grammar };

    fn from_sql(_alloc: Global, _ty: &Type, raw: &'a [u8]) -> Result<Float8, Fault> {
        Ok(Float8(u64_from_sql(raw)?))
    }

    fn from_sql_null(_alloc: Global, _ty: &Type) -> Result<Float8, Fault> {
        Err(Fault::WasNull)
    }

    fn accepts(ty: &Type) -> bool {
        has_oid(701, ty)
    }
}

/// Writes FLOAT8: 8 bytes, the bits of the number, big-endian (`float8send`).
impl ToSql for Float8 {
    ghost accepted = { is_float8 };

    ghost name = { codes "Float8" };

    ghost wire = { λ _ v. wire_unsigned w64 v };

    ghost by_room = { λ _. Unit {0} };

    ghost refuses_memory_free = { true };

    fn to_sql(&self, alloc: Global, _ty: &Type, out: &mut BytesMut) -> Result<IsNull, Fault> {
        u64_to_sql(alloc, self.0, out)?;
        Ok(IsNull::No)
    }

    fn accepts(ty: &Type) -> bool {
        has_oid(701, ty)
    }

    fn to_sql_checked(
        &self,
        alloc: Global,
        ty: &Type,
        out: &mut BytesMut,
    ) -> Result<IsNull, Fault> {
        check_type(<Float8 as ToSql>::accepts(ty), ty, "Float8")?;
        self.to_sql(alloc, ty, out)
    }

    fn encode_format(&self, _ty: &Type) -> Format {
        Format::Binary
    }
}

/// A value is read back as itself, bit for bit.
impl<'a> Paired<'a> for Float8 {
    ghost back = { λ _. BackKept (λ v w. v ≡ w) };

    ghost types = { λ _. refl };

    ghost lawful = { λ _ _. unsigned_lawful w64 unsigned8_grammar };
}
