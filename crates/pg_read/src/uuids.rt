//! Reading UUIDs.
ghost use Rattle.std.specs.Prelude.{◌≡◌};
ghost use Rattle.pg_types.specs.declared.types.built_in.BuiltIn.TheVariants.{Uuid as UuidRow};
ghost use Rattle.pg_types.specs.Content.{is_row};
ghost use Rattle.pg_base.specs.FixedBytes.{FormFixedBytes, ReadsFixedBytes};
ghost use Rattle.pg_base.proofs.FixedBytesLaws.{fixed_bytes_grammar};
ghost use Rattle.pg_base.specs.Numbers.{first_fault_number};
ghost use Rattle.pg_base.proofs.SamenessLaws.{equal_equivalence};
ghost use Rattle.pg_read.specs.Reading.{EveryCell};
ghost use Rattle.pg_read.specs.Laws.Reading.{plain_single};

use crate::from_sql::FromSql;
use pg_base::fault::Fault;
use pg_base::protocol::uuid_from_sql;
use pg_base::types::PgType;
use std::alloc::Global;
use uuid::Uuid;

/// Reads UUID: 16 bytes, in the order of its text (`uuid_recv`). Any other length is refused with
/// `Size`, and NULL with `WasNull`.
impl<'a> FromSql<'a> for Uuid {
    ghost same = { λ v w. v ≡ w };

    ghost accepted = { is_row UuidRow };

    ghost reads = { λ _. ReadsFixedBytes 16 };

    ghost memory_free = { EveryCell };

    ghost equivalence = { equal_equivalence };

    ghost single = { λ _ _. plain_single (λ v w. v ≡ w) (FormFixedBytes 16) (first_fault_number 16)
        (fixed_bytes_grammar 16) };

    fn from_sql(_alloc: Global, _ty: &PgType, raw: &'a [u8]) -> Result<Uuid, Fault> {
        Ok(Uuid::from_bytes(uuid_from_sql(raw)?))
    }

    fn from_sql_null(_alloc: Global, _ty: &PgType) -> Result<Uuid, Fault> {
        Err(Fault::WasNull)
    }

    fn accepts(ty: &PgType) -> bool {
        ty.is(&PgType::UUID)
    }
}
