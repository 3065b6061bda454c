//! Reading log sequence numbers.
ghost use Rattle.std.specs.Prelude.{◌≡◌};
ghost use Rattle.std.specs.Int.{w64};
ghost use Rattle.pg_types.specs.declared.types.built_in.BuiltIn.TheVariants.{PgLsn as PgLsnRow};
ghost use Rattle.pg_types.specs.Content.{is_row};
ghost use Rattle.pg_base.proofs.FormatLaws.{unsigned8_grammar};
ghost use Rattle.pg_base.specs.Numbers.{FormUnsigned, ReadsUnsigned, first_fault_number};
ghost use Rattle.pg_base.proofs.SamenessLaws.{equal_equivalence};
ghost use Rattle.pg_read.specs.Reading.{EveryCell};
ghost use Rattle.pg_read.specs.Laws.Reading.{plain_single};

use crate::from_sql::FromSql;
use pg_base::fault::Fault;
use pg_base::lsn::PgLsn;
use pg_base::protocol::lsn_from_sql;
use pg_base::types::PgType;
use std::alloc::Global;

/// Reads PG_LSN: 8 bytes, unsigned, big-endian (`pg_lsn_recv`). Any other length is refused with
/// `Size`, and NULL with `WasNull`.
impl<'a> FromSql<'a> for PgLsn {
    ghost same = { λ v w. v ≡ w };

    ghost accepted = { is_row PgLsnRow };

    ghost reads = { λ _. ReadsUnsigned w64 };

    ghost memory_free = { EveryCell };

    ghost equivalence = { equal_equivalence };

    ghost single = { λ _ _. plain_single (λ v w. v ≡ w) (FormUnsigned w64) (first_fault_number 8) unsigned8_grammar };

    fn from_sql(_alloc: Global, _ty: &PgType, raw: &'a [u8]) -> Result<PgLsn, Fault> {
        Ok(lsn_from_sql(raw)?.into())
    }

    fn from_sql_null(_alloc: Global, _ty: &PgType) -> Result<PgLsn, Fault> {
        Err(Fault::WasNull)
    }

    fn accepts(ty: &PgType) -> bool {
        ty.is(&PgType::PG_LSN)
    }
}
