//! Rows that are read as a tuple or a struct.
ghost use Rattle.std.specs.Prelude.{◌≡◌, ◌<◌, List, MatchOption, Result, ℕ, suc};
ghost use Rattle.pg_client.specs.FromColumns.{FreeAnd, ReadsAnd, ReadsEnd, ThroughAt};
ghost use Rattle.pg_client.specs.Places.{NeverMemoryAt};
ghost use Rattle.pg_client.specs.Rows.{columns_of, rest_of, taken_of};
ghost use Rattle.pg_client.specs.declared.column.Column.{Column};
ghost use Rattle.pg_client.specs.declared.placed_fault.PlacedFault.{PlacedFault};
ghost use Rattle.postgres_types.specs.CompositeFields.{and, end, in_turn4, in_turn8};

use crate::placed_fault::PlacedFault;
use crate::row::Row;
use postgres_types::FromSql;
use postgres_types::composite::{And, And4, And8, End};
use std::alloc::Global;

/// The values of columns that are read one after another: [`End`], or [`And`], [`And4`] or [`And8`]
/// of values and those of the columns after them.
pub trait FromColumns<'a>: Sized {
    /// The number of the columns.
    ghost width: { ℕ };

    /// What the columns from an index on, whose frames these are, are read as.
    ghost reads: { List Column → ℕ → List ℕ → Result Self PlacedFault → Type 0 };

    /// Reading them does not allocate.
    ghost memory_free: { List Column → ℕ → List ℕ → Type 0 };

    /// Reads the columns that were not taken, and ends the row. An error is that of the first
    /// column that is refused, as `Row::next` has it, or that of [`Row::finish`].
    fn from_columns(alloc: Global, row: Row<'a, '_>) -> Result<Self, PlacedFault>
        ensures outcome { reads (columns_of row.entry) (taken_of row.entry) (rest_of row.entry) result }
        ensures never_memory { memory_free (columns_of row.entry) (taken_of row.entry) (rest_of row.entry)
            → NeverMemoryAt result };

    /// Returns the number of the columns, or `None` if it does not fit in a `usize`.
    fn width() -> Option<usize>
        ensures { MatchOption result (usize.MAX < width) (λ n. n ≡ width) };
}

/// A value that is read from the columns of a row, in their order: a tuple of up to 12 values, or a
/// struct of yours.
///
/// An implementation for a struct gives its columns and makes the struct of them; [`row!`] and
/// [`from_row!`] name the fields once.
///
/// [`row!`]: postgres_types::row
/// [`from_row!`]: postgres_types::from_row
pub trait FromRow<'a>: Sized {
    /// The columns: `And<i64, And<Option<String>, End>>` for an integer and a text or NULL.
    type Columns: FromColumns<'a>;

    /// The values of the columns.
    ghost inside: { Self → Self.Columns };

    /// Creates the value from those of its columns.
    fn from_row(row: Self::Columns) -> Self
        ensures { inside result ≡ row };
}

impl<'a> FromColumns<'a> for End {
    ghost width = { 0 };

    ghost reads = { ReadsEnd };

    ghost memory_free = { λ _ _ _. Unit {0} };

    fn from_columns(_alloc: Global, row: Row<'a, '_>) -> Result<End, PlacedFault> {
        row.finish()?;
        Ok(End)
    }

    fn width() -> Option<usize> {
        Some(0)
    }
}

impl<'a, A: FromSql<'a>, B: FromColumns<'a>> FromColumns<'a> for And<A, B> {
    ghost width = { suc B.width };

    ghost reads = { ReadsAnd A.accepted A.reads B.reads };

    ghost memory_free = { FreeAnd A.accepted A.memory_free B.memory_free };

    fn from_columns(alloc: Global, row: Row<'a, '_>) -> Result<And<A, B>, PlacedFault> {
        let mut row = row;
        let value: A = row.next(alloc)?;
        let others = B::from_columns(alloc, row)?;
        Ok(And(value, others))
    }

    fn width() -> Option<usize> {
        B::width()?.checked_add(1)
    }
}

/// Four columns, one after another.
pub(crate) type InTurn4<A, B, C, D, E> = And<A, And<B, And<C, And<D, E>>>>;

impl<
    'a,
    A: FromSql<'a>,
    B: FromSql<'a>,
    C: FromSql<'a>,
    D: FromSql<'a>,
    E: FromColumns<'a>,
> FromColumns<'a> for And4<A, B, C, D, E> {
    ghost width = { ⟦<InTurn4<A, B, C, D, E> as FromColumns<'a>>⟧.width };

    ghost reads = { λ columns n s.
        ThroughAt in_turn4 (⟦<InTurn4<A, B, C, D, E> as FromColumns<'a>>⟧.reads columns n s) };

    ghost memory_free = { ⟦<InTurn4<A, B, C, D, E> as FromColumns<'a>>⟧.memory_free };

    fn from_columns(alloc: Global, row: Row<'a, '_>) -> Result<Self, PlacedFault> {
        let columns = InTurn4::<A, B, C, D, E>::from_columns(alloc, row)?;
        let And(a, And(b, And(c, And(d, others)))) = columns;
        Ok(And4(a, b, c, d, others))
    }

    fn width() -> Option<usize> {
        <InTurn4<A, B, C, D, E> as FromColumns<'a>>::width()
    }
}

/// Eight columns, one after another.
pub(crate) type InTurn8<A, B, C, D, E, F, G, H, I> = And<
    A,
    And<B, And<C, And<D, And<E, And<F, And<G, And<H, I>>>>>>>,
>;

impl<
    'a,
    A: FromSql<'a>,
    B: FromSql<'a>,
    C: FromSql<'a>,
    D: FromSql<'a>,
    E: FromSql<'a>,
    F: FromSql<'a>,
    G: FromSql<'a>,
    H: FromSql<'a>,
    I: FromColumns<'a>,
> FromColumns<'a> for And8<A, B, C, D, E, F, G, H, I> {
    ghost width = { ⟦<InTurn8<A, B, C, D, E, F, G, H, I> as FromColumns<'a>>⟧.width };

    ghost reads = { λ columns n s.
        ThroughAt in_turn8 (⟦<InTurn8<A, B, C, D, E, F, G, H, I> as FromColumns<'a>>⟧.reads columns n s) };

    ghost memory_free = { ⟦<InTurn8<A, B, C, D, E, F, G, H, I> as FromColumns<'a>>⟧.memory_free };

    fn from_columns(alloc: Global, row: Row<'a, '_>) -> Result<Self, PlacedFault> {
        let columns = InTurn8::<A, B, C, D, E, F, G, H, I>::from_columns(alloc, row)?;
        let And(a, And(b, And(c, And(d, And(e, And(f, And(g, And(h, others)))))))) = columns;
        Ok(And8(a, b, c, d, e, f, g, h, others))
    }

    fn width() -> Option<usize> {
        <InTurn8<A, B, C, D, E, F, G, H, I> as FromColumns<'a>>::width()
    }
}
