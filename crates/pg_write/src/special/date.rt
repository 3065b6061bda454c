//! Writing dates that may be infinite.
ghost use Rattle.std.specs.Prelude.{true, codes};
ghost use Rattle.std.specs.Int.{w32};
ghost use Rattle.pg_base.specs.Special.{InfinityOr, accepted_date, date_view, wire_special};

use crate::to_sql::{ToSql, check_type};
use bytes::BytesMut;
use jiff::civil;
use pg_base::acceptance::is_date;
use pg_base::fault::Fault;
use pg_base::format::{Format, IsNull};
use pg_base::protocol::date_to_sql;
use pg_base::special::Date;
use pg_base::types::PgType;
use std::alloc::Global;

/// Writes DATE, if `T` accepts it: `PosInfinity` as the greatest number of 4 bytes, `NegInfinity`
/// as the least (`date_send`), and `Value` as the value inside, which may be NULL.
impl<T: ToSql> ToSql for Date<T> {
    ghost accepted = { accepted_date T.accepted };

    ghost name = { codes "Date" };

    ghost wire = { λ ty v. wire_special w32 (T.wire ty) (date_view v) };

    ghost by_room = { λ v. InfinityOr T.by_room (date_view v) };

    ghost refuses_memory_free = { true };

    fn to_sql(&self, alloc: Global, ty: &PgType, out: &mut BytesMut) -> Result<IsNull, Fault> {
        let days = match self {
            Date::PosInfinity => i32::MAX,
            Date::NegInfinity => i32::MIN,
            Date::Value(value) => return value.to_sql(alloc, ty, out),
        };
        date_to_sql(alloc, days, out)?;
        Ok(IsNull::No)
    }

    fn accepts(ty: &PgType) -> bool {
        is_date(ty) && T::accepts(ty)
    }

    fn to_sql_checked(
        &self,
        alloc: Global,
        ty: &PgType,
        out: &mut BytesMut,
    ) -> Result<IsNull, Fault> {
        check_type(Self::accepts(ty), ty, "Date")?;
        self.to_sql(alloc, ty, out)
    }

    fn encode_format(&self, _ty: &PgType) -> Format {
        Format::Binary
    }
}
