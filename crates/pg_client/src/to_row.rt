//! Tuples and structs that are written as a row.
ghost use Rattle.std.specs.Prelude.{◌≡◌, ◌∷◌, [], ℕ, List};
ghost use Rattle.pg_base.specs.Cells.{Cell};
ghost use Rattle.pg_client.specs.RowWriting.{Writes, out_of, value_wire};
ghost use Rattle.pg_client.specs.ToColumns.{ByType, WritesEach};
ghost use Rattle.pg_client.specs.declared.row_writer.Target.{Target};
ghost use Rattle.pg_types.specs.declared.types.PgType.{PgType};
ghost use Rattle.postgres_types.specs.CompositeFields.{and, and4, and8, end, in_turn4, in_turn8};

use crate::from_row::{InTurn4, InTurn8};
use crate::placed_fault::PlacedFault;
use crate::row_writer::RowWriter;
use postgres_types::ToSql;
use postgres_types::composite::{And, And4, And8, End};

/// The values of columns that are written one after another: [`End`], or [`And`], [`And4`] or
/// [`And8`] of values and those of the columns after them. They are written through references, as
/// [`ColumnRefs`].
///
/// It has no functions.
pub trait ToColumns {
    /// What each value is written as, by the type at its place.
    ghost wires: { Self → List ByType };
}

/// References to the values of columns that are written: [`End`], or [`And`], [`And4`] or [`And8`]
/// of references and those of the columns after them.
pub trait ColumnRefs {
    /// The types of the values.
    type Values: ToColumns;

    /// The values that are referred to.
    ghost values: { Self → Self.Values };

    /// Pushes the values one after another, as [`RowWriter::push`] does, up to the first one that
    /// is refused. Those before it stay.
    fn push_to(&self, row: &mut RowWriter<'_, '_>) -> Result<(), PlacedFault>
        ensures same_reference { (out_of row.new).ghost_name ≡ (out_of row.old).ghost_name }
        ensures writes { (target : Target) (types : List PgType) (before : List ℕ) (cells : List Cell)
            → Writes target types before cells row.old
            → WritesEach (Self.Values.wires (values self.now)) target types before cells row.new result };
}

/// A value that is written as a row: a tuple of up to 12 values, or a struct of yours.
///
/// An implementation for a struct gives its columns, and pushes references to them; [`row!`] names
/// the fields once.
///
/// [`row!`]: postgres_types::row
pub trait ToRow {
    /// The columns: `And<i64, And<Option<String>, End>>` for an integer and a text or NULL.
    type Columns: ToColumns;

    /// The values of the columns.
    ghost inside: { Self → Self.Columns };

    /// Pushes the values of the columns, as [`push_to`](ColumnRefs::push_to) of references to them
    /// does.
    fn push_row(&self, row: &mut RowWriter<'_, '_>) -> Result<(), PlacedFault>
        ensures same_reference { (out_of row.new).ghost_name ≡ (out_of row.old).ghost_name }
        ensures writes { (target : Target) (types : List PgType) (before : List ℕ) (cells : List Cell)
            → Writes target types before cells row.old
            → WritesEach (Self.Columns.wires (inside self.now)) target types before cells row.new result };
}

impl ToColumns for End {
    ghost wires = { λ _. [] };
}

impl<A: ToSql, B: ToColumns> ToColumns for And<A, B> {
    ghost wires = { λ v. (λ ty. value_wire A.accepted A.name A.wire A.format ty v.0) ∷ B.wires v.1 };
}

impl<A: ToSql, B: ToSql, C: ToSql, D: ToSql, E: ToColumns> ToColumns for And4<A, B, C, D, E> {
    ghost wires = { λ v. ⟦<InTurn4<A, B, C, D, E> as ToColumns>⟧.wires (in_turn4 v) };
}

impl<
    A: ToSql,
    B: ToSql,
    C: ToSql,
    D: ToSql,
    E: ToSql,
    F: ToSql,
    G: ToSql,
    H: ToSql,
    I: ToColumns,
> ToColumns for And8<A, B, C, D, E, F, G, H, I> {
    ghost wires = { λ v. ⟦<InTurn8<A, B, C, D, E, F, G, H, I> as ToColumns>⟧.wires (in_turn8 v) };
}

impl ColumnRefs for End {
    type Values = End;

    ghost values = { λ v. v };

    fn push_to(&self, _row: &mut RowWriter<'_, '_>) -> Result<(), PlacedFault> {
        Ok(())
    }
}

impl<'a, A: ToSql, B: ColumnRefs> ColumnRefs for And<&'a A, B> {
    type Values = And<A, B::Values>;

    ghost values = { λ v. and v.0.now (B.values v.1) };

    fn push_to(&self, row: &mut RowWriter<'_, '_>) -> Result<(), PlacedFault> {
        row.push(self.0)?;
        self.1.push_to(row)
    }
}

impl<'a, A: ColumnRefs> ColumnRefs for &'a A {
    type Values = A::Values;

    ghost values = { λ v. A.values v.now };

    fn push_to(&self, row: &mut RowWriter<'_, '_>) -> Result<(), PlacedFault> {
        (**self).push_to(row)
    }
}

impl<'a, A, B, C, D, E> ColumnRefs for And4<&'a A, &'a B, &'a C, &'a D, E>
where
    A: ToSql,
    B: ToSql,
    C: ToSql,
    D: ToSql,
    E: ColumnRefs,
{
    type Values = And4<A, B, C, D, E::Values>;

    ghost values = { λ v. and4 v.0.now v.1.now v.2.now v.3.now (E.values v.4) };

    fn push_to(&self, row: &mut RowWriter<'_, '_>) -> Result<(), PlacedFault> {
        let columns = And(self.0, And(self.1, And(self.2, And(self.3, &self.4))));
        columns.push_to(row)
    }
}

impl<'a, A, B, C, D, E, F, G, H, I> ColumnRefs
    for And8<&'a A, &'a B, &'a C, &'a D, &'a E, &'a F, &'a G, &'a H, I>
where
    A: ToSql,
    B: ToSql,
    C: ToSql,
    D: ToSql,
    E: ToSql,
    F: ToSql,
    G: ToSql,
    H: ToSql,
    I: ColumnRefs,
{
    type Values = And8<A, B, C, D, E, F, G, H, I::Values>;

    ghost values = { λ v.
        and8 v.0.now v.1.now v.2.now v.3.now v.4.now v.5.now v.6.now v.7.now (I.values v.8) };

    fn push_to(&self, row: &mut RowWriter<'_, '_>) -> Result<(), PlacedFault> {
        let others = And4(self.4, self.5, self.6, self.7, &self.8);
        And4(self.0, self.1, self.2, self.3, others).push_to(row)
    }
}
