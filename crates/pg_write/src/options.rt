//! Writing an option.
ghost use Rattle.std.specs.Prelude.{true, codes};
ghost use Rattle.pg_base.specs.Options.{NoneOr};
ghost use Rattle.pg_write.specs.OptionWriting.{wire_option, format_option};

use crate::to_sql::{ToSql, check_type};
use bytes::BytesMut;
use pg_base::fault::Fault;
use pg_base::format::{Format, IsNull};
use pg_base::types::PgType;
use std::alloc::Global;

/// Writes `None` as NULL, and `Some` as the value inside.
impl<T: ToSql> ToSql for Option<T> {
    ghost accepted = { T.accepted };

    ghost name = { codes "Option" };

    ghost wire = { λ ty. wire_option (T.wire ty) };

    ghost format = { λ ty. format_option (T.format ty) };

    ghost by_room = { NoneOr T.by_room };

    ghost refuses_memory_free = { true };

    #[inline(always)]
    fn to_sql(&self, alloc: Global, ty: &PgType, out: &mut BytesMut) -> Result<IsNull, Fault> {
        match self {
            Some(value) => value.to_sql(alloc, ty, out),
            None => Ok(IsNull::Yes),
        }
    }

    fn accepts(ty: &PgType) -> bool {
        T::accepts(ty)
    }

    fn to_sql_checked(
        &self,
        alloc: Global,
        ty: &PgType,
        out: &mut BytesMut,
    ) -> Result<IsNull, Fault> {
        check_type(Self::accepts(ty), ty, "Option")?;
        self.to_sql(alloc, ty, out)
    }

    fn encode_format(&self, ty: &PgType) -> Format {
        match self {
            Some(value) => value.encode_format(ty),
            None => Format::Binary,
        }
    }
}
