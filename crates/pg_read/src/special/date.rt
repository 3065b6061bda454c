//! Reading dates that may be infinite.
ghost use Rattle.std.specs.Prelude.{Some};
ghost use Rattle.std.specs.Int.{w32};
ghost use Rattle.pg_base.specs.Special.{FreeSpecial, ReadsSpecial, SameSpecial, accepted_date, date_view};
ghost use Rattle.pg_base.proofs.SpecialLaws.{special_equivalence, inside_accepted};
ghost use Rattle.pg_read.specs.Laws.Reading.{special_single};

use crate::from_sql::FromSql;
use jiff::civil;
use pg_base::acceptance::is_date;
use pg_base::fault::Fault;
use pg_base::protocol::date_from_sql;
use pg_base::special::Date;
use pg_base::types::PgType;
use std::alloc::Global;

/// Reads DATE, if `T` accepts it (`date_recv`). Any other length than 4 bytes is refused with
/// `Size`. The greatest number is `PosInfinity` and the least `NegInfinity`, without asking `T`.
/// Any other number is `Value` of what `T` reads, or `T`'s fault. NULL is refused with `WasNull`,
/// even if `T` has a value for it.
impl<'a, T: FromSql<'a>> FromSql<'a> for Date<T> {
    ghost same = { λ v w. SameSpecial T.same (date_view v) (date_view w) };

    ghost accepted = { accepted_date T.accepted };

    ghost reads = { λ ty. ReadsSpecial w32 date_view (T.reads ty) };

    ghost memory_free = { FreeSpecial w32 (λ b. T.memory_free (Some b)) };

    ghost equivalence = { special_equivalence T.same T.equivalence date_view };

    ghost single = { λ ty ok. special_single w32 date_view T.same (T.reads ty) (T.single ty (inside_accepted _ _ ok)) };

    #[tactic(auto, using(pg_base::proofs::SpecialLemmas::finite_date))]
    fn from_sql(alloc: Global, ty: &PgType, raw: &'a [u8]) -> Result<Date<T>, Fault> {
        let days = date_from_sql(raw)?;
        if days == i32::MAX {
            return Ok(Date::PosInfinity);
        }
        if days == i32::MIN {
            return Ok(Date::NegInfinity);
        }
        Ok(Date::Value(T::from_sql(alloc, ty, raw)?))
    }

    fn from_sql_null(_alloc: Global, _ty: &PgType) -> Result<Date<T>, Fault> {
        Err(Fault::WasNull)
    }

    fn accepts(ty: &PgType) -> bool {
        is_date(ty) && T::accepts(ty)
    }
}
