//! Reading timestamps.
ghost use Rattle.std.specs.Prelude.{◌≡◌};
ghost use Rattle.pg_base.specs.Timestamps.{FormTimestamp, ReadsTimestamp, accepts_timestamps, nanos_of};
ghost use Rattle.pg_base.proofs.TimestampsLaws.{timestamp_grammar};
ghost use Rattle.pg_base.specs.Numbers.{first_fault_number};
ghost use Rattle.pg_base.proofs.SamenessLaws.{content_equivalence};
ghost use Rattle.pg_read.specs.Reading.{EveryCell};
ghost use Rattle.pg_read.specs.Laws.Reading.{plain_single};

use crate::from_sql::FromSql;
use pg_base::acceptance::is_timestamp;
use pg_base::fault::Fault;
use pg_base::protocol::timestamp_from_sql;
use pg_base::types::PgType;
use pg_base::unix_time::UnixTime;
use std::alloc::Global;

/// Reads TIMESTAMP and TIMESTAMPTZ: the microseconds from 2000-01-01 00:00:00 UTC in 8 bytes,
/// big-endian, in two's complement (`timestamp_recv`, `timestamptz_recv`). Every number is a
/// timestamp, also the two that PostgreSQL reads as infinities. Any other length is refused with
/// `Size`, and NULL with `WasNull`.
impl<'a> FromSql<'a> for UnixTime {
    ghost same = { λ v w. nanos_of v ≡ nanos_of w };

    ghost accepted = { accepts_timestamps };

    ghost reads = { λ _. ReadsTimestamp nanos_of };

    ghost memory_free = { EveryCell };

    ghost equivalence = { content_equivalence nanos_of };

    ghost single = { λ _ _. plain_single (λ v w. nanos_of v ≡ nanos_of w) (FormTimestamp nanos_of)
        (first_fault_number 8) (timestamp_grammar nanos_of) };

    fn from_sql(_alloc: Global, _ty: &PgType, raw: &'a [u8]) -> Result<UnixTime, Fault> {
        Ok(UnixTime::from_postgres_micros(timestamp_from_sql(raw)?))
    }

    fn from_sql_null(_alloc: Global, _ty: &PgType) -> Result<UnixTime, Fault> {
        Err(Fault::WasNull)
    }

    fn accepts(ty: &PgType) -> bool {
        is_timestamp(ty)
    }
}
