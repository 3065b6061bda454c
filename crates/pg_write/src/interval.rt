//! Writing intervals.
ghost use Rattle.std.specs.Prelude.{true, codes};
ghost use Rattle.pg_types.specs.declared.types.built_in.BuiltIn.TheVariants.{Interval as IntervalRow};
ghost use Rattle.pg_types.specs.Content.{is_row};
ghost use Rattle.pg_base.specs.Interval.{wire_interval};

use crate::to_sql::{ToSql, check_type};
use bytes::BytesMut;
use pg_base::fault::Fault;
use pg_base::format::{Format, IsNull};
use pg_base::interval::Interval;
use pg_base::protocol::interval_to_sql;
use pg_base::types::PgType;
use std::alloc::Global;

/// Writes INTERVAL: the microseconds in 8 bytes, then the days and the months in 4 bytes each,
/// big-endian, in two's complement (`interval_send`).
impl ToSql for Interval {
    ghost accepted = { is_row IntervalRow };

    ghost name = { codes "Interval" };

    ghost wire = { λ _ v. wire_interval v };

    ghost by_room = { λ _. Unit {0} };

    ghost refuses_memory_free = { true };

    #[inline(always)]
    fn to_sql(&self, alloc: Global, _ty: &PgType, out: &mut BytesMut) -> Result<IsNull, Fault> {
        interval_to_sql(alloc, self.microseconds, self.days, self.months, out)?;
        Ok(IsNull::No)
    }

    fn accepts(ty: &PgType) -> bool {
        ty.is(&PgType::INTERVAL)
    }

    fn to_sql_checked(
        &self,
        alloc: Global,
        ty: &PgType,
        out: &mut BytesMut,
    ) -> Result<IsNull, Fault> {
        check_type(Self::accepts(ty), ty, "Interval")?;
        self.to_sql(alloc, ty, out)
    }

    fn encode_format(&self, _ty: &PgType) -> Format {
        Format::Binary
    }
}
