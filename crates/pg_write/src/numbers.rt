//! Writing integers and booleans.
ghost use Rattle.std.specs.Prelude.{true, codes};
ghost use Rattle.std.specs.Int.{w8, w16, w32, w64};
ghost use Rattle.pg_types.specs.declared.types.built_in.BuiltIn.TheVariants.{Bool, Char, Int2, Int4, Int8, Oid};
ghost use Rattle.pg_types.specs.Content.{is_row};
ghost use Rattle.pg_base.specs.Numbers.{wire_bool, wire_signed, wire_unsigned};

use crate::to_sql::{ToSql, check_type};
use bytes::BytesMut;
use pg_base::fault::Fault;
use pg_base::format::{Format, IsNull};
use pg_base::protocol::{
    bool_to_sql, char_to_sql, int2_to_sql, int4_to_sql, int8_to_sql, oid_to_sql,
};
use pg_base::types::PgType;
use std::alloc::Global;

/// Writes BOOL: 1 byte, 0 for false and 1 for true (`boolsend`).
impl ToSql for bool {
    ghost accepted = { is_row Bool };

    ghost name = { codes "bool" };

    ghost wire = { λ _ v. wire_bool v };

    ghost by_room = { λ _. Unit {0} };

    ghost refuses_memory_free = { true };

    #[inline(always)]
    fn to_sql(&self, alloc: Global, _ty: &PgType, out: &mut BytesMut) -> Result<IsNull, Fault> {
        bool_to_sql(alloc, *self, out)?;
        Ok(IsNull::No)
    }

    fn accepts(ty: &PgType) -> bool {
        ty.is(&PgType::BOOL)
    }

    fn to_sql_checked(
        &self,
        alloc: Global,
        ty: &PgType,
        out: &mut BytesMut,
    ) -> Result<IsNull, Fault> {
        check_type(Self::accepts(ty), ty, "bool")?;
        self.to_sql(alloc, ty, out)
    }

    fn encode_format(&self, _ty: &PgType) -> Format {
        Format::Binary
    }
}

/// Writes CHAR, the type `"char"`: 1 byte, in two's complement (`charsend`).
impl ToSql for i8 {
    ghost accepted = { is_row Char };

    ghost name = { codes "i8" };

    ghost wire = { λ _ v. wire_signed w8 v };

    ghost by_room = { λ _. Unit {0} };

    ghost refuses_memory_free = { true };

    #[inline(always)]
    fn to_sql(&self, alloc: Global, _ty: &PgType, out: &mut BytesMut) -> Result<IsNull, Fault> {
        char_to_sql(alloc, *self, out)?;
        Ok(IsNull::No)
    }

    fn accepts(ty: &PgType) -> bool {
        ty.is(&PgType::CHAR)
    }

    fn to_sql_checked(
        &self,
        alloc: Global,
        ty: &PgType,
        out: &mut BytesMut,
    ) -> Result<IsNull, Fault> {
        check_type(Self::accepts(ty), ty, "i8")?;
        self.to_sql(alloc, ty, out)
    }

    fn encode_format(&self, _ty: &PgType) -> Format {
        Format::Binary
    }
}

/// Writes INT2: 2 bytes, big-endian, in two's complement (`int2send`).
impl ToSql for i16 {
    ghost accepted = { is_row Int2 };

    ghost name = { codes "i16" };

    ghost wire = { λ _ v. wire_signed w16 v };

    ghost by_room = { λ _. Unit {0} };

    ghost refuses_memory_free = { true };

    #[inline(always)]
    fn to_sql(&self, alloc: Global, _ty: &PgType, out: &mut BytesMut) -> Result<IsNull, Fault> {
        int2_to_sql(alloc, *self, out)?;
        Ok(IsNull::No)
    }

    fn accepts(ty: &PgType) -> bool {
        ty.is(&PgType::INT2)
    }

    fn to_sql_checked(
        &self,
        alloc: Global,
        ty: &PgType,
        out: &mut BytesMut,
    ) -> Result<IsNull, Fault> {
        check_type(Self::accepts(ty), ty, "i16")?;
        self.to_sql(alloc, ty, out)
    }

    fn encode_format(&self, _ty: &PgType) -> Format {
        Format::Binary
    }
}

/// Writes INT4: 4 bytes, big-endian, in two's complement (`int4send`).
impl ToSql for i32 {
    ghost accepted = { is_row Int4 };

    ghost name = { codes "i32" };

    ghost wire = { λ _ v. wire_signed w32 v };

    ghost by_room = { λ _. Unit {0} };

    ghost refuses_memory_free = { true };

    #[inline(always)]
    fn to_sql(&self, alloc: Global, _ty: &PgType, out: &mut BytesMut) -> Result<IsNull, Fault> {
        int4_to_sql(alloc, *self, out)?;
        Ok(IsNull::No)
    }

    fn accepts(ty: &PgType) -> bool {
        ty.is(&PgType::INT4)
    }

    fn to_sql_checked(
        &self,
        alloc: Global,
        ty: &PgType,
        out: &mut BytesMut,
    ) -> Result<IsNull, Fault> {
        check_type(Self::accepts(ty), ty, "i32")?;
        self.to_sql(alloc, ty, out)
    }

    fn encode_format(&self, _ty: &PgType) -> Format {
        Format::Binary
    }
}

/// Writes INT8: 8 bytes, big-endian, in two's complement (`int8send`).
impl ToSql for i64 {
    ghost accepted = { is_row Int8 };

    ghost name = { codes "i64" };

    ghost wire = { λ _ v. wire_signed w64 v };

    ghost by_room = { λ _. Unit {0} };

    ghost refuses_memory_free = { true };

    #[inline(always)]
    fn to_sql(&self, alloc: Global, _ty: &PgType, out: &mut BytesMut) -> Result<IsNull, Fault> {
        int8_to_sql(alloc, *self, out)?;
        Ok(IsNull::No)
    }

    fn accepts(ty: &PgType) -> bool {
        ty.is(&PgType::INT8)
    }

    fn to_sql_checked(
        &self,
        alloc: Global,
        ty: &PgType,
        out: &mut BytesMut,
    ) -> Result<IsNull, Fault> {
        check_type(Self::accepts(ty), ty, "i64")?;
        self.to_sql(alloc, ty, out)
    }

    fn encode_format(&self, _ty: &PgType) -> Format {
        Format::Binary
    }
}

/// Writes OID: 4 bytes, unsigned, big-endian (`oidsend`).
impl ToSql for u32 {
    ghost accepted = { is_row Oid };

    ghost name = { codes "u32" };

    ghost wire = { λ _ v. wire_unsigned w32 v };

    ghost by_room = { λ _. Unit {0} };

    ghost refuses_memory_free = { true };

    #[inline(always)]
    fn to_sql(&self, alloc: Global, _ty: &PgType, out: &mut BytesMut) -> Result<IsNull, Fault> {
        oid_to_sql(alloc, *self, out)?;
        Ok(IsNull::No)
    }

    fn accepts(ty: &PgType) -> bool {
        ty.is(&PgType::OID)
    }

    fn to_sql_checked(
        &self,
        alloc: Global,
        ty: &PgType,
        out: &mut BytesMut,
    ) -> Result<IsNull, Fault> {
        check_type(Self::accepts(ty), ty, "u32")?;
        self.to_sql(alloc, ty, out)
    }

    fn encode_format(&self, _ty: &PgType) -> Format {
        Format::Binary
    }
}
