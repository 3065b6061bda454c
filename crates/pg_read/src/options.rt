//! Reading an option.
ghost use Rattle.std.specs.Prelude.{Some};
ghost use Rattle.pg_base.specs.Options.{NoneOr};
ghost use Rattle.pg_base.proofs.SamenessLaws.{option_equivalence};
ghost use Rattle.pg_base.specs.Sameness.{SameOption};
ghost use Rattle.pg_read.specs.OptionReading.{ReadsOption};
ghost use Rattle.pg_read.specs.Laws.Reading.{option_single};

use crate::from_sql::FromSql;
use pg_base::fault::Fault;
use pg_base::types::PgType;
use std::alloc::Global;

/// Reads NULL as `None`, and bytes as `Some` of what `T` reads, or `T`'s fault. An empty cell is
/// not NULL.
impl<'a, T: FromSql<'a>> FromSql<'a> for Option<T> {
    ghost same = { SameOption T.same };

    ghost accepted = { T.accepted };

    ghost reads = { λ ty. ReadsOption (T.reads ty) };

    ghost memory_free = { NoneOr (λ b. T.memory_free (Some b)) };

    ghost equivalence = { option_equivalence T.same T.equivalence };

    ghost single = { λ ty ok. option_single T.same (T.reads ty) (T.single ty ok) };

    fn from_sql(alloc: Global, ty: &PgType, raw: &'a [u8]) -> Result<Option<T>, Fault> {
        Ok(Some(T::from_sql(alloc, ty, raw)?))
    }

    fn from_sql_null(_alloc: Global, _ty: &PgType) -> Result<Option<T>, Fault> {
        Ok(None)
    }

    fn accepts(ty: &PgType) -> bool {
        T::accepts(ty)
    }
}
