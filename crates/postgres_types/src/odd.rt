//! Conversions with unusual rules, as a user may write them: another length, a value for NULL, a
//! timestamp as a number, and a refusal in writing.
ghost use Rattle.std.specs.Prelude.{◌≡◌, true};
ghost use Rattle.postgres_types.specs.Conversion.{BackKept, BackOption, Equal, EveryCell, FormSigned, Int4};
ghost use Rattle.postgres_types.specs.Conversion.{ReadsOption, ReadsPlain, ReadsSigned, ReadsThrough, SameOption};
ghost use Rattle.postgres_types.specs.Conversion.{Through, Timestamp, ap, codes, content_equivalence};
ghost use Rattle.postgres_types.specs.Conversion.{equal_equivalence, inside_equivalence, int4_lawful, int4_single};
ghost use Rattle.postgres_types.specs.Conversion.{int8_lawful, int8_single, is_row, option_equivalence, option_lawful};
ghost use Rattle.postgres_types.specs.Conversion.{option_single, plain_lawful, plain_single, refl, refusing_lawful};
ghost use Rattle.postgres_types.specs.Conversion.{signed_finite, signed_written, through_finite, through_lawful};
ghost use Rattle.postgres_types.specs.Conversion.{through_single, user, w32, w64, wire_constrained, wire_option};
ghost use Rattle.postgres_types.specs.Conversion.{wire_signed};
ghost use Rattle.postgres_types.specs.Odd.{first_fault_short, gap_view, is_even, short_grammar};

pub mod laws;

use crate::paired::{Finite, Paired};
use bytes::BytesMut;
use pg_base::fault::Fault;
use pg_base::format::{Format, IsNull};
use pg_base::protocol::{int4_from_sql, int4_to_sql, int8_from_sql, int8_to_sql};
use pg_base::types::PgType;
use pg_read::from_sql::FromSql;
use pg_write::to_sql::{ToSql, check_type};
use std::alloc::Global;

/// A TIMESTAMP of 4 bytes, which no server sends: an integer, big-endian, in two's complement. Any
/// other length is refused with `User` and the text `width`, and NULL with `WasNull`.
#[derive(Debug, Clone, Copy, PartialEq, Eq)]
pub struct Short(pub i32);

impl<'a> FromSql<'a> for Short {
    ghost same = { λ v w. v.0 ≡ w.0 };

    ghost accepted = { is_row Timestamp };

    ghost reads = { λ _. ReadsThrough (λ v. v.0) (ReadsPlain (FormSigned w32) first_fault_short) };

    ghost memory_free = { EveryCell };

    ghost equivalence = { content_equivalence (λ v. v.0) };

    ghost single = { λ _ _. through_single (λ v. v.0) Equal (ReadsPlain (FormSigned w32) first_fault_short)
        (plain_single Equal (FormSigned w32) first_fault_short short_grammar) };

    fn from_sql(_alloc: Global, _ty: &PgType, raw: &'a [u8]) -> Result<Short, Fault> {
        match int4_from_sql(raw) {
            Ok(v) => Ok(Short(v)),
            Err(_) => Err(Fault::user("width")),
        }
    }

    fn from_sql_null(_alloc: Global, _ty: &PgType) -> Result<Short, Fault> {
        Err(Fault::WasNull)
    }

    fn accepts(ty: &PgType) -> bool {
        ty.is(&PgType::TIMESTAMP)
    }
}

/// Writes the number in 4 bytes, big-endian.
impl ToSql for Short {
    ghost accepted = { is_row Timestamp };

    ghost name = { codes "Short" };

    ghost wire = { λ _ v. wire_signed w32 v.0 };

    ghost by_room = { λ _. Unit {0} };

    ghost refuses_memory_free = { true };

    fn to_sql(&self, alloc: Global, _ty: &PgType, out: &mut BytesMut) -> Result<IsNull, Fault> {
        int4_to_sql(alloc, self.0, out)?;
        Ok(IsNull::No)
    }

    fn accepts(ty: &PgType) -> bool {
        ty.is(&PgType::TIMESTAMP)
    }

    fn to_sql_checked(
        &self,
        alloc: Global,
        ty: &PgType,
        out: &mut BytesMut,
    ) -> Result<IsNull, Fault> {
        check_type(<Short as ToSql>::accepts(ty), ty, "Short")?;
        self.to_sql(alloc, ty, out)
    }

    fn encode_format(&self, _ty: &PgType) -> Format {
        Format::Binary
    }
}

/// A value is read back as itself.
impl<'a> Paired<'a> for Short {
    ghost back = { λ _ v. Through (λ w. w.0) (BackKept Equal v.0) };

    ghost types = { λ _. refl };

    ghost lawful = { λ _ _. through_lawful (λ v. v.0) (ReadsPlain (FormSigned w32) first_fault_short) Equal
        (wire_signed w32) (BackKept Equal)
        (plain_lawful (λ z. z) (FormSigned w32) first_fault_short short_grammar (wire_signed w32)
        (signed_written w32)) };
}

/// A value that is read from a cell that is not an infinity is written as that cell.
impl<'a> Finite<'a> for Short {
    ghost dates = { λ _ _ _ b v. signed_finite w32 w32 b v.0 };

    ghost timestamps = { λ _ _ _ b v. signed_finite w64 w32 b v.0 };
}

/// An INT4, or a value for NULL.
#[derive(Debug, Clone, Copy, PartialEq, Eq)]
pub enum Gap {
    /// NULL.
    Hole,
    /// The number.
    Full(i32),
}

/// Reads NULL as `Hole`, and 4 bytes as `Full` of their number. Any other length is refused with
/// `Size`, also that of an empty cell.
impl<'a> FromSql<'a> for Gap {
    ghost same = { λ v w. SameOption Equal (gap_view v) (gap_view w) };

    ghost accepted = { is_row Int4 };

    ghost reads = { λ _. ReadsThrough gap_view (ReadsOption (ReadsSigned w32)) };

    ghost memory_free = { EveryCell };

    ghost equivalence = { inside_equivalence gap_view (SameOption Equal) (option_equivalence Equal equal_equivalence) };

    ghost single = { λ _ _. through_single gap_view (SameOption Equal) (ReadsOption (ReadsSigned w32))
        (option_single Equal (ReadsSigned w32) int4_single) };

    fn from_sql(_alloc: Global, _ty: &PgType, raw: &'a [u8]) -> Result<Gap, Fault> {
        Ok(Gap::Full(int4_from_sql(raw)?))
    }

    fn from_sql_null(_alloc: Global, _ty: &PgType) -> Result<Gap, Fault> {
        Ok(Gap::Hole)
    }

    fn accepts(ty: &PgType) -> bool {
        ty.is(&PgType::INT4)
    }
}

/// Writes `Hole` as NULL, and `Full` as the 4 bytes of its number.
impl ToSql for Gap {
    ghost accepted = { is_row Int4 };

    ghost name = { codes "Gap" };

    ghost wire = { λ _ v. wire_option (wire_signed w32) (gap_view v) };

    ghost by_room = { λ _. Unit {0} };

    ghost refuses_memory_free = { true };

    fn to_sql(&self, alloc: Global, _ty: &PgType, out: &mut BytesMut) -> Result<IsNull, Fault> {
        match self {
            Gap::Hole => Ok(IsNull::Yes),
            Gap::Full(v) => {
                int4_to_sql(alloc, *v, out)?;
                Ok(IsNull::No)
            }
        }
    }

    fn accepts(ty: &PgType) -> bool {
        ty.is(&PgType::INT4)
    }

    fn to_sql_checked(
        &self,
        alloc: Global,
        ty: &PgType,
        out: &mut BytesMut,
    ) -> Result<IsNull, Fault> {
        check_type(<Gap as ToSql>::accepts(ty), ty, "Gap")?;
        self.to_sql(alloc, ty, out)
    }

    fn encode_format(&self, _ty: &PgType) -> Format {
        Format::Binary
    }
}

/// A value is read back as itself.
impl<'a> Paired<'a> for Gap {
    ghost back = { λ _ v. Through gap_view (BackOption (wire_signed w32) (BackKept Equal) (gap_view v)) };

    ghost types = { λ _. refl };

    ghost lawful = { λ _ _. through_lawful gap_view (ReadsOption (ReadsSigned w32)) (SameOption Equal)
        (wire_option (wire_signed w32)) (BackOption (wire_signed w32) (BackKept Equal))
        (option_lawful Equal (ReadsSigned w32) (wire_signed w32) (BackKept Equal) int4_lawful) };
}

/// A TIMESTAMP as its number of microseconds from 2000-01-01 00:00:00, also if it is an infinity: 8
/// bytes, big-endian, in two's complement. Any other length is refused with `Size`, and NULL with
/// `WasNull`.
#[derive(Debug, Clone, Copy, PartialEq, Eq)]
pub struct Moment(pub i64);

impl<'a> FromSql<'a> for Moment {
    ghost same = { λ v w. v.0 ≡ w.0 };

    ghost accepted = { is_row Timestamp };

    ghost reads = { λ _. ReadsThrough (λ v. v.0) (ReadsSigned w64) };

    ghost memory_free = { EveryCell };

    ghost equivalence = { content_equivalence (λ v. v.0) };

    ghost single = { λ _ _. through_single (λ v. v.0) Equal (ReadsSigned w64) int8_single };

    fn from_sql(_alloc: Global, _ty: &PgType, raw: &'a [u8]) -> Result<Moment, Fault> {
        Ok(Moment(int8_from_sql(raw)?))
    }

    fn from_sql_null(_alloc: Global, _ty: &PgType) -> Result<Moment, Fault> {
        Err(Fault::WasNull)
    }

    fn accepts(ty: &PgType) -> bool {
        ty.is(&PgType::TIMESTAMP)
    }
}

/// Writes the number in 8 bytes, big-endian.
impl ToSql for Moment {
    ghost accepted = { is_row Timestamp };

    ghost name = { codes "Moment" };

    ghost wire = { λ _ v. wire_signed w64 v.0 };

    ghost by_room = { λ _. Unit {0} };

    ghost refuses_memory_free = { true };

    fn to_sql(&self, alloc: Global, _ty: &PgType, out: &mut BytesMut) -> Result<IsNull, Fault> {
        int8_to_sql(alloc, self.0, out)?;
        Ok(IsNull::No)
    }

    fn accepts(ty: &PgType) -> bool {
        ty.is(&PgType::TIMESTAMP)
    }

    fn to_sql_checked(
        &self,
        alloc: Global,
        ty: &PgType,
        out: &mut BytesMut,
    ) -> Result<IsNull, Fault> {
        check_type(<Moment as ToSql>::accepts(ty), ty, "Moment")?;
        self.to_sql(alloc, ty, out)
    }

    fn encode_format(&self, _ty: &PgType) -> Format {
        Format::Binary
    }
}

/// A value is read back as itself.
impl<'a> Paired<'a> for Moment {
    ghost back = { λ _ v. Through (λ w. w.0) (BackKept Equal v.0) };

    ghost types = { λ _. refl };

    ghost lawful = { λ _ _. through_lawful (λ v. v.0) (ReadsSigned w64) Equal (wire_signed w64)
        (BackKept Equal) int8_lawful };
}

/// A value that is read from a cell that is not an infinity is written as that cell.
impl<'a> Finite<'a> for Moment {
    ghost dates = { λ _ _ _. through_finite (λ v. v.0) (ReadsSigned w64) w32 (wire_signed w64)
        (signed_finite w32 w64) };

    ghost timestamps = { λ _ _ _. through_finite (λ v. v.0) (ReadsSigned w64) w64 (wire_signed w64)
        (signed_finite w64 w64) };
}

/// An INT4. Every number is read, and only even numbers are written.
#[derive(Debug, Clone, Copy, PartialEq, Eq)]
pub struct Picky(pub i32);

/// Reads INT4 as `i32` does.
impl<'a> FromSql<'a> for Picky {
    ghost same = { λ v w. v.0 ≡ w.0 };

    ghost accepted = { is_row Int4 };

    ghost reads = { λ _. ReadsThrough (λ v. v.0) (ReadsSigned w32) };

    ghost memory_free = { EveryCell };

    ghost equivalence = { content_equivalence (λ v. v.0) };

    ghost single = { λ _ _. through_single (λ v. v.0) Equal (ReadsSigned w32) int4_single };

    fn from_sql(_alloc: Global, _ty: &PgType, raw: &'a [u8]) -> Result<Picky, Fault> {
        Ok(Picky(int4_from_sql(raw)?))
    }

    fn from_sql_null(_alloc: Global, _ty: &PgType) -> Result<Picky, Fault> {
        Err(Fault::WasNull)
    }

    fn accepts(ty: &PgType) -> bool {
        ty.is(&PgType::INT4)
    }
}

/// Writes an even number as its 4 bytes; an odd one is refused with `User` and the text `odd`.
impl ToSql for Picky {
    ghost accepted = { is_row Int4 };

    ghost name = { codes "Picky" };

    ghost wire = { λ _ v. wire_constrained is_even (user (codes "odd")) (wire_signed w32) v.0 };

    ghost by_room = { λ _. Unit {0} };

    ghost refuses_memory_free = { true };

    fn to_sql(&self, alloc: Global, _ty: &PgType, out: &mut BytesMut) -> Result<IsNull, Fault> {
        if self.0.unsigned_abs() % 2 != 0 {
            return Err(Fault::user("odd"));
        }
        int4_to_sql(alloc, self.0, out)?;
        Ok(IsNull::No)
    }

    fn accepts(ty: &PgType) -> bool {
        ty.is(&PgType::INT4)
    }

    fn to_sql_checked(
        &self,
        alloc: Global,
        ty: &PgType,
        out: &mut BytesMut,
    ) -> Result<IsNull, Fault> {
        check_type(<Picky as ToSql>::accepts(ty), ty, "Picky")?;
        self.to_sql(alloc, ty, out)
    }

    fn encode_format(&self, _ty: &PgType) -> Format {
        Format::Binary
    }
}

/// A value that is written is read back as itself.
impl<'a> Paired<'a> for Picky {
    ghost back = { λ _ v. Through (λ w. w.0) (BackKept Equal v.0) };

    ghost types = { λ _. refl };

    ghost lawful = { λ _ _. through_lawful (λ v. v.0) (ReadsSigned w32) Equal
        (wire_constrained is_even (user (codes "odd")) (wire_signed w32)) (BackKept Equal)
        (refusing_lawful is_even (user (codes "odd")) Equal (ReadsSigned w32) (wire_signed w32)
        (λ v w h. ap is_even h) (BackKept Equal) int4_lawful) };
}
