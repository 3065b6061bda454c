//! Writing timestamps that may be infinite.
ghost use Rattle.std.specs.Prelude.{true, codes};
ghost use Rattle.std.specs.Int.{w64};
ghost use Rattle.pg_base.specs.Special.{InfinityOr, accepted_timestamp, timestamp_view, wire_special};

use crate::to_sql::{ToSql, check_type};
use bytes::BytesMut;
use pg_base::acceptance::is_timestamp;
use pg_base::fault::Fault;
use pg_base::format::{Format, IsNull};
use pg_base::protocol::timestamp_to_sql;
use pg_base::special::Timestamp;
use pg_base::types::PgType;
use pg_base::unix_time::UnixTime;
use std::alloc::Global;

/// Writes TIMESTAMP and TIMESTAMPTZ, if `T` accepts them: `PosInfinity` as the greatest number of 8
/// bytes, `NegInfinity` as the least (`timestamp_send`, `timestamptz_send`), and `Value` as the
/// value inside, which may be NULL.
impl<T: ToSql> ToSql for Timestamp<T> {
    ghost accepted = { accepted_timestamp T.accepted };

    ghost name = { codes "Timestamp" };

    ghost wire = { λ ty v. wire_special w64 (T.wire ty) (timestamp_view v) };

    ghost by_room = { λ v. InfinityOr T.by_room (timestamp_view v) };

    ghost refuses_memory_free = { true };

    fn to_sql(&self, alloc: Global, ty: &PgType, out: &mut BytesMut) -> Result<IsNull, Fault> {
        let micros = match self {
            Timestamp::PosInfinity => i64::MAX,
            Timestamp::NegInfinity => i64::MIN,
            Timestamp::Value(value) => return value.to_sql(alloc, ty, out),
        };
        timestamp_to_sql(alloc, micros, out)?;
        Ok(IsNull::No)
    }

    fn accepts(ty: &PgType) -> bool {
        is_timestamp(ty) && T::accepts(ty)
    }

    fn to_sql_checked(
        &self,
        alloc: Global,
        ty: &PgType,
        out: &mut BytesMut,
    ) -> Result<IsNull, Fault> {
        check_type(Self::accepts(ty), ty, "Timestamp")?;
        self.to_sql(alloc, ty, out)
    }

    fn encode_format(&self, _ty: &PgType) -> Format {
        Format::Binary
    }
}
