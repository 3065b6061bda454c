//! Reading timestamps that may be infinite.
ghost use Rattle.std.specs.Prelude.{Some};
ghost use Rattle.std.specs.Int.{w64};
ghost use Rattle.pg_base.specs.Special.{FreeSpecial, ReadsSpecial, SameSpecial, accepted_timestamp, timestamp_view};
ghost use Rattle.pg_base.proofs.SpecialLaws.{special_equivalence, inside_accepted};
ghost use Rattle.pg_read.specs.Laws.Reading.{special_single};

use crate::from_sql::FromSql;
use pg_base::acceptance::is_timestamp;
use pg_base::fault::Fault;
use pg_base::protocol::timestamp_from_sql;
use pg_base::special::Timestamp;
use pg_base::types::PgType;
use pg_base::unix_time::UnixTime;
use std::alloc::Global;

/// Reads TIMESTAMP and TIMESTAMPTZ, if `T` accepts them (`timestamp_recv`, `timestamptz_recv`). Any
/// other length than 8 bytes is refused with `Size`. The greatest number is `PosInfinity` and the
/// least `NegInfinity`, without asking `T`. Any other number is `Value` of what `T` reads, or `T`'s
/// fault. NULL is refused with `WasNull`, even if `T` has a value for it.
impl<'a, T: FromSql<'a>> FromSql<'a> for Timestamp<T> {
    ghost same = { λ v w. SameSpecial T.same (timestamp_view v) (timestamp_view w) };

    ghost accepted = { accepted_timestamp T.accepted };

    ghost reads = { λ ty. ReadsSpecial w64 timestamp_view (T.reads ty) };

    ghost memory_free = { FreeSpecial w64 (λ b. T.memory_free (Some b)) };

    ghost equivalence = { special_equivalence T.same T.equivalence timestamp_view };

    ghost single = { λ ty ok. special_single w64 timestamp_view T.same (T.reads ty)
        (T.single ty (inside_accepted _ _ ok)) };

    #[tactic(auto, using(pg_base::proofs::SpecialLemmas::finite_timestamp))]
    fn from_sql(alloc: Global, ty: &PgType, raw: &'a [u8]) -> Result<Timestamp<T>, Fault> {
        let micros = timestamp_from_sql(raw)?;
        if micros == i64::MAX {
            return Ok(Timestamp::PosInfinity);
        }
        if micros == i64::MIN {
            return Ok(Timestamp::NegInfinity);
        }
        Ok(Timestamp::Value(T::from_sql(alloc, ty, raw)?))
    }

    fn from_sql_null(_alloc: Global, _ty: &PgType) -> Result<Timestamp<T>, Fault> {
        Err(Fault::WasNull)
    }

    fn accepts(ty: &PgType) -> bool {
        is_timestamp(ty) && T::accepts(ty)
    }
}
