//! Reading intervals.
ghost use Rattle.std.specs.Prelude.{◌≡◌};
ghost use Rattle.pg_types.specs.declared.types.built_in.BuiltIn.TheVariants.{Interval as IntervalRow};
ghost use Rattle.pg_types.specs.Content.{is_row};
ghost use Rattle.pg_base.specs.Interval.{FormInterval, ReadsInterval, interval_width};
ghost use Rattle.pg_base.specs.Numbers.{first_fault_number};
ghost use Rattle.pg_base.proofs.IntervalLaws.{interval_grammar};
ghost use Rattle.pg_base.proofs.SamenessLaws.{equal_equivalence};
ghost use Rattle.pg_read.specs.Reading.{EveryCell};
ghost use Rattle.pg_read.specs.Laws.Reading.{plain_single};

use crate::from_sql::FromSql;
use pg_base::fault::Fault;
use pg_base::interval::Interval;
use pg_base::protocol::interval_from_sql;
use pg_base::types::PgType;
use std::alloc::Global;

/// Reads INTERVAL: the microseconds in 8 bytes, then the days and the months in 4 bytes each,
/// big-endian, in two's complement (`interval_recv`). Any other length than 16 bytes is refused
/// with `Size`, and NULL with `WasNull`.
impl<'a> FromSql<'a> for Interval {
    ghost same = { λ v w. v ≡ w };

    ghost accepted = { is_row IntervalRow };

    ghost reads = { λ _. ReadsInterval };

    ghost memory_free = { EveryCell };

    ghost equivalence = { equal_equivalence };

    ghost single = { λ _ _. plain_single (λ v w. v ≡ w) FormInterval (first_fault_number interval_width)
        interval_grammar };

    fn from_sql(_alloc: Global, _ty: &PgType, raw: &'a [u8]) -> Result<Interval, Fault> {
        let (microseconds, days, months) = interval_from_sql(raw)?;
        Ok(Interval {
            microseconds,
            days,
            months,
        })
    }

    fn from_sql_null(_alloc: Global, _ty: &PgType) -> Result<Interval, Fault> {
        Err(Fault::WasNull)
    }

    fn accepts(ty: &PgType) -> bool {
        ty.is(&PgType::INTERVAL)
    }
}
