//! Writing log sequence numbers.
ghost use Rattle.std.specs.Prelude.{true, codes};
ghost use Rattle.std.specs.Int.{w64};
ghost use Rattle.pg_types.specs.declared.types.built_in.BuiltIn.TheVariants.{PgLsn as PgLsnRow};
ghost use Rattle.pg_types.specs.Content.{is_row};
ghost use Rattle.pg_base.specs.Numbers.{wire_unsigned};

use crate::to_sql::{ToSql, check_type};
use bytes::BytesMut;
use pg_base::fault::Fault;
use pg_base::format::{Format, IsNull};
use pg_base::lsn::PgLsn;
use pg_base::protocol::lsn_to_sql;
use pg_base::types::PgType;
use std::alloc::Global;

/// Writes PG_LSN: 8 bytes, unsigned, big-endian (`pg_lsn_send`).
impl ToSql for PgLsn {
    ghost accepted = { is_row PgLsnRow };

    ghost name = { codes "PgLsn" };

    ghost wire = { λ _ v. wire_unsigned w64 v };

    ghost by_room = { λ _. Unit {0} };

    ghost refuses_memory_free = { true };

    #[inline(always)]
    fn to_sql(&self, alloc: Global, _ty: &PgType, out: &mut BytesMut) -> Result<IsNull, Fault> {
        lsn_to_sql(alloc, u64::from(*self), out)?;
        Ok(IsNull::No)
    }

    fn accepts(ty: &PgType) -> bool {
        ty.is(&PgType::PG_LSN)
    }

    fn to_sql_checked(
        &self,
        alloc: Global,
        ty: &PgType,
        out: &mut BytesMut,
    ) -> Result<IsNull, Fault> {
        check_type(Self::accepts(ty), ty, "PgLsn")?;
        self.to_sql(alloc, ty, out)
    }

    fn encode_format(&self, _ty: &PgType) -> Format {
        Format::Binary
    }
}
