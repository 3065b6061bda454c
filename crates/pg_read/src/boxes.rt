//! Reading a box.
ghost use Rattle.pg_base.proofs.SamenessLaws.{inside_equivalence};
ghost use Rattle.pg_read.specs.BoxReading.{ReadsBox};
ghost use Rattle.pg_read.specs.Reading.{NullAlone};
ghost use Rattle.pg_read.specs.Laws.Reading.{box_single};

use crate::from_sql::FromSql;
use pg_base::fault::Fault;
use pg_base::types::PgType;
use std::alloc::Global;

/// Reads bytes as `T` does, into a box. NULL is refused with `WasNull`, even if `T` has a value for
/// it.
impl<'a, T: FromSql<'a>> FromSql<'a> for Box<T> {
    ghost same = { λ v w. T.same v.value w.value };

    ghost accepted = { T.accepted };

    ghost reads = { λ ty. ReadsBox (λ v. v.value) (T.reads ty) };

    ghost memory_free = { NullAlone };

    ghost equivalence = { inside_equivalence (λ v. v.value) T.same T.equivalence };

    ghost single = { λ ty ok. box_single (λ v. v.value) T.same (T.reads ty) (T.single ty ok) };

    fn from_sql(alloc: Global, ty: &PgType, raw: &'a [u8]) -> Result<Box<T>, Fault> {
        let value = T::from_sql(alloc, ty, raw)?;
        Ok(Box::new(alloc, value)?)
    }

    fn from_sql_null(_alloc: Global, _ty: &PgType) -> Result<Box<T>, Fault> {
        Err(Fault::WasNull)
    }

    fn accepts(ty: &PgType) -> bool {
        T::accepts(ty)
    }
}
