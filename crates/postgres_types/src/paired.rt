//! Types whose values are read back as they were written.
ghost use Rattle.std.specs.Prelude.{◌≡◌, IsTrue};
ghost use Rattle.std.specs.Int.{w32, w64};
ghost use Rattle.pg_types.specs.declared.types.built_in.BuiltIn.TheVariants.{Date as DateRow};
ghost use Rattle.pg_types.specs.Content.{Content, is_row};
ghost use Rattle.pg_types.specs.Faults.{Outcome};
ghost use Rattle.pg_base.specs.Timestamps.{accepts_timestamps};
ghost use Rattle.postgres_types.specs.ReadingBack.{IsLawful, KeepsFinite};

mod arrays;
mod bits;
mod boxes;
mod bytea;
mod civil;
mod hstore;
mod interval;
mod lsn;
mod network;
mod numbers;
mod options;
mod special;
mod texts;
mod unix_time;
mod uuids;

use pg_read::from_sql::FromSql;
use pg_write::to_sql::ToSql;

/// A type whose values are read back as they were written: as themselves, or as its ghost member
/// `back` says.
///
/// It has no functions. An implementation says by `back` what a written value is read back as, and
/// proves the laws.
pub trait Paired<'a>: FromSql<'a> + ToSql {
    /// What the cell of a written value is read back as.
    ghost back: { Content → Self → Outcome Self → Type 0 };

    /// Law: both directions accept the same types.
    ghost types: { (ty : Content) → Self.FromSql.accepted ty ≡ Self.ToSql.accepted ty };

    /// Law: values with the same content are written and read back the same. A value that bytes
    /// give is written as bytes that read as it, and a value that NULL gives as a cell that reads
    /// as it, unless writing refuses it. The cell of a written value reads as what the value is
    /// read back as, and as nothing else.
    ghost lawful: { (ty : Content) → IsTrue (Self.FromSql.accepted ty)
        → IsLawful Self.same (Self.reads ty) (Self.wire ty) (back ty) };
}

/// A type whose values, if they are read from a finite date or timestamp, are never written as an
/// infinity.
///
/// It has no functions. `Date<T>` and `Timestamp<T>` are [`Paired`] for such a `T`.
pub trait Finite<'a>: Paired<'a> {
    /// Law: a value that is read from a DATE of 4 bytes that is not an infinity is written as such
    /// a cell, or refused.
    ghost dates: { (ty : Content) → IsTrue (is_row DateRow ty) → IsTrue (Self.FromSql.accepted ty)
        → KeepsFinite w32 (Self.reads ty) (Self.wire ty) };

    /// Law: a value that is read from a TIMESTAMP or a TIMESTAMPTZ of 8 bytes that is not an
    /// infinity is written as such a cell, or refused.
    ghost timestamps: { (ty : Content) → IsTrue (accepts_timestamps ty) → IsTrue (Self.FromSql.accepted ty)
        → KeepsFinite w64 (Self.reads ty) (Self.wire ty) };
}
