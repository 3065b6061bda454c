//! Writing timestamps.
ghost use Rattle.std.specs.Prelude.{true, codes};
ghost use Rattle.pg_base.specs.Timestamps.{accepts_timestamps, nanos_of, wire_timestamp};

use crate::to_sql::{ToSql, check_type};
use bytes::BytesMut;
use pg_base::acceptance::is_timestamp;
use pg_base::fault::Fault;
use pg_base::format::{Format, IsNull};
use pg_base::protocol::timestamp_to_sql;
use pg_base::types::PgType;
use pg_base::unix_time::UnixTime;
use std::alloc::Global;

/// Writes TIMESTAMP and TIMESTAMPTZ: the microseconds from 2000-01-01 00:00:00 UTC, truncated
/// toward zero, in 8 bytes, big-endian, in two's complement (`timestamp_send`, `timestamptz_send`).
/// A timestamp whose microseconds do not fit in 8 bytes is refused with `Transmit`.
impl ToSql for UnixTime {
    ghost accepted = { accepts_timestamps };

    ghost name = { codes "UnixTime" };

    ghost wire = { λ _ v. wire_timestamp (nanos_of v) };

    ghost by_room = { λ _. Unit {0} };

    ghost refuses_memory_free = { true };

    #[inline(always)]
    fn to_sql(&self, alloc: Global, _ty: &PgType, out: &mut BytesMut) -> Result<IsNull, Fault> {
        let Some(micros) = self.to_postgres_micros() else {
            return Err(Fault::Transmit);
        };
        timestamp_to_sql(alloc, micros, out)?;
        Ok(IsNull::No)
    }

    fn accepts(ty: &PgType) -> bool {
        is_timestamp(ty)
    }

    fn to_sql_checked(
        &self,
        alloc: Global,
        ty: &PgType,
        out: &mut BytesMut,
    ) -> Result<IsNull, Fault> {
        check_type(Self::accepts(ty), ty, "UnixTime")?;
        self.to_sql(alloc, ty, out)
    }

    fn encode_format(&self, _ty: &PgType) -> Format {
        Format::Binary
    }
}
