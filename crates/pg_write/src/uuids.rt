//! Writing UUIDs.
ghost use Rattle.std.specs.Prelude.{true, codes};
ghost use Rattle.pg_types.specs.declared.types.built_in.BuiltIn.TheVariants.{Uuid as UuidRow};
ghost use Rattle.pg_types.specs.Content.{is_row};
ghost use Rattle.pg_base.specs.FixedBytes.{wire_fixed_bytes};

use crate::to_sql::{ToSql, check_type};
use bytes::BytesMut;
use pg_base::fault::Fault;
use pg_base::format::{Format, IsNull};
use pg_base::protocol::uuid_to_sql;
use pg_base::types::PgType;
use std::alloc::Global;
use uuid::Uuid;

/// Writes UUID: 16 bytes, in the order of its text (`uuid_send`).
impl ToSql for Uuid {
    ghost accepted = { is_row UuidRow };

    ghost name = { codes "Uuid" };

    ghost wire = { λ _ v. wire_fixed_bytes 16 v };

    ghost by_room = { λ _. Unit {0} };

    ghost refuses_memory_free = { true };

    #[inline(always)]
    fn to_sql(&self, alloc: Global, _ty: &PgType, out: &mut BytesMut) -> Result<IsNull, Fault> {
        uuid_to_sql(alloc, self.into_bytes(), out)?;
        Ok(IsNull::No)
    }

    fn accepts(ty: &PgType) -> bool {
        ty.is(&PgType::UUID)
    }

    fn to_sql_checked(
        &self,
        alloc: Global,
        ty: &PgType,
        out: &mut BytesMut,
    ) -> Result<IsNull, Fault> {
        check_type(Self::accepts(ty), ty, "Uuid")?;
        self.to_sql(alloc, ty, out)
    }

    fn encode_format(&self, _ty: &PgType) -> Format {
        Format::Binary
    }
}
