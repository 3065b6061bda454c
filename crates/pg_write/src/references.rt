//! Writing through a reference.
ghost use Rattle.std.specs.Prelude.{true, codes};

use crate::to_sql::{ToSql, check_type};
use bytes::BytesMut;
use pg_base::fault::Fault;
use pg_base::format::{Format, IsNull};
use pg_base::types::PgType;
use std::alloc::Global;

/// Writes the value that is referred to, which may be NULL.
impl<'b, T: ToSql> ToSql for &'b T {
    ghost accepted = { T.accepted };

    ghost name = { codes "&T" };

    ghost wire = { λ ty v. T.wire ty v.now };

    ghost format = { λ ty v. T.format ty v.now };

    ghost by_room = { λ v. T.by_room v.now };

    ghost refuses_memory_free = { true };

    #[inline(always)]
    fn to_sql(&self, alloc: Global, ty: &PgType, out: &mut BytesMut) -> Result<IsNull, Fault> {
        (**self).to_sql(alloc, ty, out)
    }

    fn accepts(ty: &PgType) -> bool {
        T::accepts(ty)
    }

    fn to_sql_checked(
        &self,
        alloc: Global,
        ty: &PgType,
        out: &mut BytesMut,
    ) -> Result<IsNull, Fault> {
        check_type(Self::accepts(ty), ty, "&T")?;
        self.to_sql(alloc, ty, out)
    }

    fn encode_format(&self, ty: &PgType) -> Format {
        (**self).encode_format(ty)
    }
}
