//! Reading integers and booleans.
ghost use Rattle.std.specs.Prelude.{◌≡◌};
ghost use Rattle.std.specs.Int.{w8, w16, w32, w64};
ghost use Rattle.pg_types.specs.declared.types.built_in.BuiltIn.TheVariants.{Bool, Char, Int2, Int4, Int8, Oid};
ghost use Rattle.pg_types.specs.Content.{is_row};
ghost use Rattle.pg_base.proofs.FormatLaws.{bool_grammar, char_grammar, int2_grammar, int4_grammar, int8_grammar};
ghost use Rattle.pg_base.proofs.FormatLaws.{unsigned4_grammar};
ghost use Rattle.pg_base.specs.Numbers.{FormBool, FormSigned, FormUnsigned, first_fault_number, ReadsBool, ReadsSigned};
ghost use Rattle.pg_base.specs.Numbers.{ReadsUnsigned};
ghost use Rattle.pg_base.proofs.SamenessLaws.{equal_equivalence};
ghost use Rattle.pg_read.specs.Reading.{EveryCell};
ghost use Rattle.pg_read.specs.Laws.Reading.{plain_single};

use crate::from_sql::FromSql;
use pg_base::fault::Fault;
use pg_base::protocol::{
    bool_from_sql, char_from_sql, int2_from_sql, int4_from_sql, int8_from_sql, oid_from_sql,
};
use pg_base::types::PgType;
use std::alloc::Global;

/// Reads BOOL: 1 byte, 0 for false and any other for true (`boolrecv`). Any other length is refused
/// with `Size`, and NULL with `WasNull`.
impl<'a> FromSql<'a> for bool {
    ghost same = { λ v w. v ≡ w };

    ghost accepted = { is_row Bool };

    ghost reads = { λ _. ReadsBool };

    ghost memory_free = { EveryCell };

    ghost equivalence = { equal_equivalence };

    ghost single = { λ _ _. plain_single (λ v w. v ≡ w) FormBool (first_fault_number 1) bool_grammar };

    fn from_sql(_alloc: Global, _ty: &PgType, raw: &'a [u8]) -> Result<bool, Fault> {
        bool_from_sql(raw)
    }

    fn from_sql_null(_alloc: Global, _ty: &PgType) -> Result<bool, Fault> {
        Err(Fault::WasNull)
    }

    fn accepts(ty: &PgType) -> bool {
        ty.is(&PgType::BOOL)
    }
}

/// Reads CHAR, the type `"char"`: 1 byte, in two's complement (`charrecv`). Any other length is
/// refused with `Size`, and NULL with `WasNull`.
impl<'a> FromSql<'a> for i8 {
    ghost same = { λ v w. v ≡ w };

    ghost accepted = { is_row Char };

    ghost reads = { λ _. ReadsSigned w8 };

    ghost memory_free = { EveryCell };

    ghost equivalence = { equal_equivalence };

    ghost single = { λ _ _. plain_single (λ v w. v ≡ w) (FormSigned w8) (first_fault_number 1) char_grammar };

    fn from_sql(_alloc: Global, _ty: &PgType, raw: &'a [u8]) -> Result<i8, Fault> {
        char_from_sql(raw)
    }

    fn from_sql_null(_alloc: Global, _ty: &PgType) -> Result<i8, Fault> {
        Err(Fault::WasNull)
    }

    fn accepts(ty: &PgType) -> bool {
        ty.is(&PgType::CHAR)
    }
}

/// Reads INT2: 2 bytes, big-endian, in two's complement (`int2recv`). Any other length is refused
/// with `Size`, and NULL with `WasNull`.
impl<'a> FromSql<'a> for i16 {
    ghost same = { λ v w. v ≡ w };

    ghost accepted = { is_row Int2 };

    ghost reads = { λ _. ReadsSigned w16 };

    ghost memory_free = { EveryCell };

    ghost equivalence = { equal_equivalence };

    ghost single = { λ _ _. plain_single (λ v w. v ≡ w) (FormSigned w16) (first_fault_number 2) int2_grammar };

    fn from_sql(_alloc: Global, _ty: &PgType, raw: &'a [u8]) -> Result<i16, Fault> {
        int2_from_sql(raw)
    }

    fn from_sql_null(_alloc: Global, _ty: &PgType) -> Result<i16, Fault> {
        Err(Fault::WasNull)
    }

    fn accepts(ty: &PgType) -> bool {
        ty.is(&PgType::INT2)
    }
}

/// Reads INT4: 4 bytes, big-endian, in two's complement (`int4recv`). Any other length is refused
/// with `Size`, and NULL with `WasNull`.
impl<'a> FromSql<'a> for i32 {
    ghost same = { λ v w. v ≡ w };

    ghost accepted = { is_row Int4 };

    ghost reads = { λ _. ReadsSigned w32 };

    ghost memory_free = { EveryCell };

    ghost equivalence = { equal_equivalence };

    ghost single = { λ _ _. plain_single (λ v w. v ≡ w) (FormSigned w32) (first_fault_number 4) int4_grammar };

    fn from_sql(_alloc: Global, _ty: &PgType, raw: &'a [u8]) -> Result<i32, Fault> {
        int4_from_sql(raw)
    }

    fn from_sql_null(_alloc: Global, _ty: &PgType) -> Result<i32, Fault> {
        Err(Fault::WasNull)
    }

    fn accepts(ty: &PgType) -> bool {
        ty.is(&PgType::INT4)
    }
}

/// Reads INT8: 8 bytes, big-endian, in two's complement (`int8recv`). Any other length is refused
/// with `Size`, and NULL with `WasNull`.
impl<'a> FromSql<'a> for i64 {
    ghost same = { λ v w. v ≡ w };

    ghost accepted = { is_row Int8 };

    ghost reads = { λ _. ReadsSigned w64 };

    ghost memory_free = { EveryCell };

    ghost equivalence = { equal_equivalence };

    ghost single = { λ _ _. plain_single (λ v w. v ≡ w) (FormSigned w64) (first_fault_number 8) int8_grammar };

    fn from_sql(_alloc: Global, _ty: &PgType, raw: &'a [u8]) -> Result<i64, Fault> {
        int8_from_sql(raw)
    }

    fn from_sql_null(_alloc: Global, _ty: &PgType) -> Result<i64, Fault> {
        Err(Fault::WasNull)
    }

    fn accepts(ty: &PgType) -> bool {
        ty.is(&PgType::INT8)
    }
}

/// Reads OID: 4 bytes, unsigned, big-endian (`oidrecv`). Any other length is refused with `Size`,
/// and NULL with `WasNull`.
impl<'a> FromSql<'a> for u32 {
    ghost same = { λ v w. v ≡ w };

    ghost accepted = { is_row Oid };

    ghost reads = { λ _. ReadsUnsigned w32 };

    ghost memory_free = { EveryCell };

    ghost equivalence = { equal_equivalence };

    ghost single = { λ _ _. plain_single (λ v w. v ≡ w) (FormUnsigned w32) (first_fault_number 4) unsigned4_grammar };

    fn from_sql(_alloc: Global, _ty: &PgType, raw: &'a [u8]) -> Result<u32, Fault> {
        oid_from_sql(raw)
    }

    fn from_sql_null(_alloc: Global, _ty: &PgType) -> Result<u32, Fault> {
        Err(Fault::WasNull)
    }

    fn accepts(ty: &PgType) -> bool {
        ty.is(&PgType::OID)
    }
}
