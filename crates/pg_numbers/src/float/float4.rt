//! FLOAT4.
ghost use Rattle.std.specs.Prelude.{◌≡◌, ℕ, from_bits, is_nan, to_bits, true};
ghost use Rattle.std.specs.Float.{binary32};
ghost use Rattle.std.specs.Int.{w32};
ghost use Rattle.pg_base.proofs.FormatLaws.{unsigned4_grammar};
ghost use Rattle.pg_base.specs.Numbers.{FormUnsigned, ReadsUnsigned, first_fault_number, wire_unsigned};
ghost use Rattle.pg_numbers.specs.Floats.{is_float4, number_of};
ghost use Rattle.postgres_types.specs.Conversion.{BackKept, EveryCell, codes, equal_equivalence, plain_single, refl};
ghost use Rattle.postgres_types.specs.Laws.NumberBack.{unsigned_lawful};

use crate::catalog::has_oid;
use postgres_types::private::BytesMut;
use postgres_types::protocol::{oid_from_sql as u32_from_sql, oid_to_sql as u32_to_sql};
use postgres_types::{Fault, Format, FromSql, IsNull, Paired, ToSql, Type, check_type};
use std::alloc::Global;
use std::marker::Model;
use std::num::{f32_from_bits_with_nan, f32_to_bits_with_nan};

/// A value of FLOAT4: the 32 bits of an IEEE 754 number. A NaN has a sign and a payload.
#[derive(Clone, Copy)]
pub struct Float4(u32);

impl Model for Float4 {
    ghost Value = { ℕ };

    ghost view = { λ v. v.0 };

    ghost inverse = { λ bits. record { 0 = bits } };
}

impl Float4 {
    /// Returns the value of these bits: from the most significant bit on, the sign, the exponent
    /// and the fraction.
    pub fn from_bits(bits: u32) -> Float4
        ensures { result ≡ bits }
    {
        Float4(bits)
    }

    /// Returns the bits of the value.
    pub fn to_bits(self) -> u32
        ensures { result ≡ self }
    {
        self.0
    }

    /// Whether the value is NaN, with any sign and payload.
    pub fn is_nan(self) -> bool
        ensures { result ≡ is_nan (from_bits binary32 self) }
    {
        f32_from_bits_with_nan(self.0).is_nan()
    }

    /// Returns the number, which may be an infinity, or `None` if the value is NaN.
    pub fn get(self) -> Option<f32>
        ensures { result ≡ number_of binary32 self }
    {
        let x = f32_from_bits_with_nan(self.0);
        if x.is_nan() { None } else { Some(x) }
    }
}

/// Creates the value of the number. A NaN of Rattle has no sign and no payload: it becomes the
/// quiet NaN whose sign bit is clear, as PostgreSQL writes it.
impl From<f32> for Float4 {
    ghost from_gives = { λ x v. v ≡ to_bits binary32 x };

    fn from(x: f32) -> Float4 {
        Float4(f32_to_bits_with_nan(x))
    }
}

/// Creates the number of the value. A NaN loses its sign and payload.
impl From<Float4> for f32 {
    ghost from_gives = { λ v x. x ≡ from_bits binary32 v };

    fn from(v: Float4) -> f32 {
        f32_from_bits_with_nan(v.0)
    }
}

/// Reads FLOAT4: 4 bytes, the bits of the number, big-endian (`float4recv`). Any other length is
/// refused with `Size`, and NULL with `WasNull`.
///
/// It accepts the type with the OID 700.
impl<'a> FromSql<'a> for Float4 {
    ghost same = { λ v w. v ≡ w };

    ghost accepted = { is_float4 };

    ghost reads = { λ _. ReadsUnsigned w32 };

    ghost memory_free = { EveryCell };

    ghost equivalence = { equal_equivalence };

    ghost single = { λ _ _. plain_single (λ v w. v ≡ w) (FormUnsigned w32) (first_fault_number 4) unsigned4_grammar };

    fn from_sql(_alloc: Global, _ty: &Type, raw: &'a [u8]) -> Result<Float4, Fault> {
        Ok(Float4(u32_from_sql(raw)?))
    }

    fn from_sql_null(_alloc: Global, _ty: &Type) -> Result<Float4, Fault> {
        Err(Fault::WasNull)
    }

    fn accepts(ty: &Type) -> bool {
        has_oid(700, ty)
    }
}

/// Writes FLOAT4: 4 bytes, the bits of the number, big-endian (`float4send`).
impl ToSql for Float4 {
    ghost accepted = { is_float4 };

    ghost name = { codes "Float4" };

    ghost wire = { λ _ v. wire_unsigned w32 v };

    ghost by_room = { λ _. Unit {0} };

    ghost refuses_memory_free = { true };

    fn to_sql(&self, alloc: Global, _ty: &Type, out: &mut BytesMut) -> Result<IsNull, Fault> {
        u32_to_sql(alloc, self.0, out)?;
        Ok(IsNull::No)
    }

    fn accepts(ty: &Type) -> bool {
        has_oid(700, ty)
    }

    fn to_sql_checked(
        &self,
        alloc: Global,
        ty: &Type,
        out: &mut BytesMut,
    ) -> Result<IsNull, Fault> {
        check_type(<Float4 as ToSql>::accepts(ty), ty, "Float4")?;
        self.to_sql(alloc, ty, out)
    }

    fn encode_format(&self, _ty: &Type) -> Format {
        Format::Binary
    }
}

/// A value is read back as itself, bit for bit.
impl<'a> Paired<'a> for Float4 {
    ghost back = { λ _. BackKept (λ v w. v ≡ w) };

    ghost types = { λ _. refl };

    ghost lawful = { λ _ _. unsigned_lawful w32 unsigned4_grammar };
}
