//! Writing byte strings.
ghost use Rattle.std.specs.Prelude.{◌≡◌, true, codes};
ghost use Rattle.std.specs.Cow.{cow_slice_items};
ghost use Rattle.pg_types.specs.declared.types.built_in.BuiltIn.TheVariants.{Bytea};
ghost use Rattle.pg_base.specs.Bytea.{wire_bytes};
ghost use Rattle.pg_types.specs.Content.{content, is_row};

use crate::to_sql::{ToSql, check_type};
use bytes::BytesMut;
use pg_base::fault::Fault;
use pg_base::format::{Format, IsNull};
use pg_base::protocol::bytea_to_sql;
use pg_base::types::PgType;
use std::alloc::Global;
use std::borrow::CowSlice;

/// Writes BYTEA: the bytes (`byteasend`). They are never NULL, even if there are none.
impl<'b> ToSql for &'b [u8] {
    ghost accepted = { is_row Bytea };

    ghost name = { codes "&[u8]" };

    ghost wire = { λ _ v. wire_bytes v.now };

    ghost by_room = { λ _. Unit {0} };

    ghost refuses_memory_free = { true };

    #[inline(always)]
    fn to_sql(&self, alloc: Global, _ty: &PgType, out: &mut BytesMut) -> Result<IsNull, Fault> {
        bytea_to_sql(alloc, *self, out)?;
        Ok(IsNull::No)
    }

    fn accepts(ty: &PgType) -> bool
        ensures { result ≡ is_row Bytea (content ty.now) }
    {
        ty.is(&PgType::BYTEA)
    }

    fn to_sql_checked(
        &self,
        alloc: Global,
        ty: &PgType,
        out: &mut BytesMut,
    ) -> Result<IsNull, Fault> {
        check_type(Self::accepts(ty), ty, "&[u8]")?;
        self.to_sql(alloc, ty, out)
    }

    fn encode_format(&self, _ty: &PgType) -> Format {
        Format::Binary
    }
}

/// Writes BYTEA: the bytes (`byteasend`). They are never NULL, even if there are none.
impl ToSql for Vec<u8> {
    ghost accepted = { is_row Bytea };

    ghost name = { codes "Vec<u8>" };

    ghost wire = { λ _ v. wire_bytes v.items };

    ghost by_room = { λ _. Unit {0} };

    ghost refuses_memory_free = { true };

    #[inline(always)]
    fn to_sql(&self, alloc: Global, _ty: &PgType, out: &mut BytesMut) -> Result<IsNull, Fault> {
        bytea_to_sql(alloc, self.as_slice(), out)?;
        Ok(IsNull::No)
    }

    fn accepts(ty: &PgType) -> bool {
        ty.is(&PgType::BYTEA)
    }

    fn to_sql_checked(
        &self,
        alloc: Global,
        ty: &PgType,
        out: &mut BytesMut,
    ) -> Result<IsNull, Fault> {
        check_type(Self::accepts(ty), ty, "Vec<u8>")?;
        self.to_sql(alloc, ty, out)
    }

    fn encode_format(&self, _ty: &PgType) -> Format {
        Format::Binary
    }
}

/// Writes BYTEA: the bytes (`byteasend`). They are never NULL, even if there are none.
impl<const N: usize> ToSql for [u8; N] {
    ghost accepted = { is_row Bytea };

    ghost name = { codes "[u8; N]" };

    ghost wire = { λ _ v. wire_bytes v };

    ghost by_room = { λ _. Unit {0} };

    ghost refuses_memory_free = { true };

    #[inline(always)]
    fn to_sql(&self, alloc: Global, _ty: &PgType, out: &mut BytesMut) -> Result<IsNull, Fault> {
        bytea_to_sql(alloc, self.as_slice(), out)?;
        Ok(IsNull::No)
    }

    fn accepts(ty: &PgType) -> bool {
        ty.is(&PgType::BYTEA)
    }

    fn to_sql_checked(
        &self,
        alloc: Global,
        ty: &PgType,
        out: &mut BytesMut,
    ) -> Result<IsNull, Fault> {
        check_type(Self::accepts(ty), ty, "[u8; N]")?;
        self.to_sql(alloc, ty, out)
    }

    fn encode_format(&self, _ty: &PgType) -> Format {
        Format::Binary
    }
}

/// Writes BYTEA: the bytes (`byteasend`). They are never NULL, even if there are none.
impl<'b> ToSql for CowSlice<'b, u8> {
    ghost accepted = { is_row Bytea };

    ghost name = { codes "Cow<[u8]>" };

    ghost wire = { λ _ v. wire_bytes (cow_slice_items v) };

    ghost by_room = { λ _. Unit {0} };

    ghost refuses_memory_free = { true };

    #[inline(always)]
    fn to_sql(&self, alloc: Global, _ty: &PgType, out: &mut BytesMut) -> Result<IsNull, Fault> {
        bytea_to_sql(alloc, self.as_slice(), out)?;
        Ok(IsNull::No)
    }

    fn accepts(ty: &PgType) -> bool
        ensures { result ≡ is_row Bytea (content ty.now) }
    {
        ty.is(&PgType::BYTEA)
    }

    fn to_sql_checked(
        &self,
        alloc: Global,
        ty: &PgType,
        out: &mut BytesMut,
    ) -> Result<IsNull, Fault> {
        check_type(Self::accepts(ty), ty, "Cow<[u8]>")?;
        self.to_sql(alloc, ty, out)
    }

    fn encode_format(&self, _ty: &PgType) -> Format {
        Format::Binary
    }
}
