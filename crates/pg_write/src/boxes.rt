//! Writing a box.
ghost use Rattle.std.specs.Prelude.{true, codes};

use crate::to_sql::{ToSql, check_type};
use bytes::BytesMut;
use pg_base::fault::Fault;
use pg_base::format::{Format, IsNull};
use pg_base::types::PgType;
use std::alloc::Global;

/// Writes the value in the box, which may be NULL. The format is always binary, even if `T` has
/// another.
impl<T: ToSql> ToSql for Box<T> {
    ghost accepted = { T.accepted };

    ghost name = { codes "Box" };

    ghost wire = { λ ty v. T.wire ty v.value };

    ghost by_room = { λ v. T.by_room v.value };

    ghost refuses_memory_free = { true };

    #[inline(always)]
    fn to_sql(&self, alloc: Global, ty: &PgType, out: &mut BytesMut) -> Result<IsNull, Fault> {
        (**self).to_sql(alloc, ty, out)
    }

    fn accepts(ty: &PgType) -> bool {
        T::accepts(ty)
    }

    fn to_sql_checked(
        &self,
        alloc: Global,
        ty: &PgType,
        out: &mut BytesMut,
    ) -> Result<IsNull, Fault> {
        check_type(Self::accepts(ty), ty, "Box")?;
        self.to_sql(alloc, ty, out)
    }

    fn encode_format(&self, _ty: &PgType) -> Format {
        Format::Binary
    }
}
