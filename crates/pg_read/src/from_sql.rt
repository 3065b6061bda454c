//! The trait of types that are read from cells.
ghost use Rattle.std.specs.Prelude.{◌≡◌, Some, None, Bool, IsTrue};
ghost use Rattle.pg_base.specs.Cells.{Cell, cell_of};
ghost use Rattle.pg_types.specs.Content.{Content, content};
ghost use Rattle.pg_types.specs.Faults.{Outcome, Answers, NeverMemory};
ghost use Rattle.pg_base.specs.Sameness.{IsEquivalence};
ghost use Rattle.pg_read.specs.Reading.{ReadsSingle};

use pg_base::fault::Fault;
use pg_base::types::PgType;
use std::alloc::Global;

/// A type that is read from a cell in PostgreSQL's binary format.
///
/// The ghost members of an implementation say what it reads, and the implementation proves that its
/// functions return just that. It writes all three functions. Apart from `Memory`, what a call
/// returns depends on the type and the cell alone.
pub trait FromSql<'a>: Sized + Drop {
    /// Two values have the same content.
    ghost same: { Self → Self → Type 0 };

    /// The Postgres type is accepted.
    ghost accepted: { Content → Bool };

    /// A cell of the type has the outcome.
    ghost reads: { Content → Cell → Outcome Self → Type 0 };

    /// Reading the cell does not allocate. By default this holds of no cell.
    ghost memory_free: { Cell → Type 0 } = { λ _. ⊥ };

    /// Reads the bytes of a cell that is not NULL. Returns the value, the fault of the first check
    /// that fails, or `Memory`. The type must be accepted.
    fn from_sql(alloc: Global, ty: &PgType, raw: &'a [u8]) -> Result<Self, Fault>
        requires { IsTrue (accepted (content ty.now)) }
        ensures outcome { Answers (reads (content ty.now) (Some raw.entry.now)) result }
        ensures never_memory { memory_free (Some raw.entry.now) → NeverMemory result };

    /// Reads NULL. Returns the value that this Rust type has for NULL, or a fault, most often
    /// `WasNull`. The type must be accepted.
    fn from_sql_null(alloc: Global, ty: &PgType) -> Result<Self, Fault>
        requires { IsTrue (accepted (content ty.now)) }
        ensures outcome { Answers (reads (content ty.now) None) result }
        ensures never_memory { memory_free None → NeverMemory result };

    /// Whether cells of this type are read.
    fn accepts(ty: &PgType) -> bool
        ensures { result ≡ accepted (content ty.now) };

    /// Law: sameness is an equivalence.
    ghost equivalence: { IsEquivalence same };

    /// Law: a cell has at most one outcome.
    ghost single: { (ty : Content) → IsTrue (accepted ty) → ReadsSingle same (reads ty) };
}

/// Reads a cell (`None` is NULL), by `from_sql` or `from_sql_null`. The type must be accepted.
pub fn from_sql_nullable<'a, T: FromSql<'a>>(
    alloc: Global,
    ty: &PgType,
    raw: Option<&'a [u8]>,
) -> Result<T, Fault>
    requires { IsTrue (T.accepted (content ty.now)) }
    ensures outcome { Answers (T.reads (content ty.now) (cell_of raw.entry)) result }
    ensures never_memory { T.memory_free (cell_of raw.entry) → NeverMemory result }
{
    match raw {
        Some(raw) => T::from_sql(alloc, ty, raw),
        None => T::from_sql_null(alloc, ty),
    }
}
