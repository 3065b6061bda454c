//! Reading byte strings.
ghost use Rattle.std.specs.Prelude.{◌≡◌};
ghost use Rattle.pg_types.specs.declared.types.built_in.BuiltIn.TheVariants.{Bytea};
ghost use Rattle.pg_base.specs.Bytea.{FormBytes, ReadsBytes, first_fault_bytes};
ghost use Rattle.pg_types.specs.Content.{content, is_row};
ghost use Rattle.pg_base.proofs.FormatLaws.{bytes_grammar};
ghost use Rattle.pg_base.proofs.SamenessLaws.{content_equivalence};
ghost use Rattle.pg_read.specs.Reading.{EveryCell, NullAlone};
ghost use Rattle.pg_read.specs.Laws.Reading.{plain_single};

use crate::from_sql::FromSql;
use pg_base::fault::Fault;
use pg_base::protocol::bytea_from_sql;
use pg_base::types::PgType;
use std::alloc::Global;

/// Reads BYTEA: the bytes of the cell, borrowed (`bytearecv`). NULL is refused with `WasNull`.
impl<'a> FromSql<'a> for &'a [u8] {
    ghost same = { λ s t. s.now ≡ t.now };

    ghost accepted = { is_row Bytea };

    ghost reads = { λ _. ReadsBytes (λ s. s.now) };

    ghost memory_free = { EveryCell };

    ghost equivalence = { content_equivalence (λ s. s.now) };

    ghost single = { λ _ _. plain_single (λ s t. s.now ≡ t.now) (FormBytes (λ s. s.now)) first_fault_bytes
        (bytes_grammar (λ s. s.now)) };

    fn from_sql(_alloc: Global, _ty: &PgType, raw: &'a [u8]) -> Result<&'a [u8], Fault> {
        Ok(bytea_from_sql(raw))
    }

    fn from_sql_null(_alloc: Global, _ty: &PgType) -> Result<&'a [u8], Fault> {
        Err(Fault::WasNull)
    }

    fn accepts(ty: &PgType) -> bool
        ensures { result ≡ is_row Bytea (content ty.now) }
    {
        ty.is(&PgType::BYTEA)
    }
}

/// Reads BYTEA: a copy of the bytes of the cell (`bytearecv`). NULL is refused with `WasNull`.
impl<'a> FromSql<'a> for Vec<u8> {
    ghost same = { λ s t. s.items ≡ t.items };

    ghost accepted = { is_row Bytea };

    ghost reads = { λ _. ReadsBytes (λ s. s.items) };

    ghost memory_free = { NullAlone };

    ghost equivalence = { content_equivalence (λ s. s.items) };

    ghost single = { λ _ _. plain_single (λ s t. s.items ≡ t.items) (FormBytes (λ s. s.items)) first_fault_bytes
        (bytes_grammar (λ s. s.items)) };

    fn from_sql(alloc: Global, _ty: &PgType, raw: &'a [u8]) -> Result<Vec<u8>, Fault> {
        Ok(Vec::from_slice(alloc, bytea_from_sql(raw))?)
    }

    fn from_sql_null(_alloc: Global, _ty: &PgType) -> Result<Vec<u8>, Fault> {
        Err(Fault::WasNull)
    }

    fn accepts(ty: &PgType) -> bool {
        ty.is(&PgType::BYTEA)
    }
}
