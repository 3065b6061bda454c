//! Rows that are read as tuples, and tuples that are written as rows.
ghost use Rattle.postgres_types.specs.CompositeFields.{and, and4, and8, end};

use crate::from_row::FromRow;
use crate::placed_fault::PlacedFault;
use crate::row_writer::RowWriter;
use crate::to_row::{ColumnRefs, ToRow};
use postgres_types::composite::{And, And4, And8, End};
use postgres_types::{FromSql, ToSql, row};

impl<'a, A: FromSql<'a>> FromRow<'a> for (A,) {
    type Columns = And<A, End>;

    ghost inside = { λ v. and v.0 end };

    fn from_row(row: Self::Columns) -> Self {
        let row!(a) = row;
        (a,)
    }
}

impl<A: ToSql> ToRow for (A,) {
    type Columns = And<A, End>;

    ghost inside = { λ v. and v.0 end };

    fn push_row(&self, row: &mut RowWriter<'_, '_>) -> Result<(), PlacedFault> {
        And(&self.0, End).push_to(row)
    }
}

impl<'a, A: FromSql<'a>, B: FromSql<'a>> FromRow<'a> for (A, B) {
    type Columns = And<A, And<B, End>>;

    ghost inside = { λ v. and v.0 (and v.1 end) };

    fn from_row(row: Self::Columns) -> Self {
        let row!(a, b) = row;
        (a, b)
    }
}

impl<A: ToSql, B: ToSql> ToRow for (A, B) {
    type Columns = And<A, And<B, End>>;

    ghost inside = { λ v. and v.0 (and v.1 end) };

    fn push_row(&self, row: &mut RowWriter<'_, '_>) -> Result<(), PlacedFault> {
        And(&self.0, And(&self.1, End)).push_to(row)
    }
}

impl<'a, A: FromSql<'a>, B: FromSql<'a>, C: FromSql<'a>> FromRow<'a> for (A, B, C) {
    type Columns = And<A, And<B, And<C, End>>>;

    ghost inside = { λ v. and v.0 (and v.1 (and v.2 end)) };

    fn from_row(row: Self::Columns) -> Self {
        let row!(a, b, c) = row;
        (a, b, c)
    }
}

impl<A: ToSql, B: ToSql, C: ToSql> ToRow for (A, B, C) {
    type Columns = And<A, And<B, And<C, End>>>;

    ghost inside = { λ v. and v.0 (and v.1 (and v.2 end)) };

    fn push_row(&self, row: &mut RowWriter<'_, '_>) -> Result<(), PlacedFault> {
        And(&self.0, And(&self.1, And(&self.2, End))).push_to(row)
    }
}

impl<'a, A: FromSql<'a>, B: FromSql<'a>, C: FromSql<'a>, D: FromSql<'a>> FromRow<'a>
    for (A, B, C, D) {
    type Columns = And4<A, B, C, D, End>;

    ghost inside = { λ v. and4 v.0 v.1 v.2 v.3 end };

    fn from_row(row: Self::Columns) -> Self {
        let row!(a, b, c, d) = row;
        (a, b, c, d)
    }
}

impl<A: ToSql, B: ToSql, C: ToSql, D: ToSql> ToRow for (A, B, C, D) {
    type Columns = And4<A, B, C, D, End>;

    ghost inside = { λ v. and4 v.0 v.1 v.2 v.3 end };

    fn push_row(&self, row: &mut RowWriter<'_, '_>) -> Result<(), PlacedFault> {
        And4(&self.0, &self.1, &self.2, &self.3, End).push_to(row)
    }
}

impl<'a, A: FromSql<'a>, B: FromSql<'a>, C: FromSql<'a>, D: FromSql<'a>, E: FromSql<'a>> FromRow<'a>
    for (A, B, C, D, E) {
    type Columns = And4<A, B, C, D, And<E, End>>;

    ghost inside = { λ v. and4 v.0 v.1 v.2 v.3 (and v.4 end) };

    fn from_row(row: Self::Columns) -> Self {
        let row!(a, b, c, d, e) = row;
        (a, b, c, d, e)
    }
}

impl<A: ToSql, B: ToSql, C: ToSql, D: ToSql, E: ToSql> ToRow for (A, B, C, D, E) {
    type Columns = And4<A, B, C, D, And<E, End>>;

    ghost inside = { λ v. and4 v.0 v.1 v.2 v.3 (and v.4 end) };

    fn push_row(&self, row: &mut RowWriter<'_, '_>) -> Result<(), PlacedFault> {
        And4(&self.0, &self.1, &self.2, &self.3, And(&self.4, End)).push_to(row)
    }
}

impl<
    'a,
    A: FromSql<'a>,
    B: FromSql<'a>,
    C: FromSql<'a>,
    D: FromSql<'a>,
    E: FromSql<'a>,
    F: FromSql<'a>,
> FromRow<'a> for (A, B, C, D, E, F) {
    type Columns = And4<A, B, C, D, And<E, And<F, End>>>;

    ghost inside = { λ v. and4 v.0 v.1 v.2 v.3 (and v.4 (and v.5 end)) };

    fn from_row(row: Self::Columns) -> Self {
        let row!(a, b, c, d, e, f) = row;
        (a, b, c, d, e, f)
    }
}

impl<A: ToSql, B: ToSql, C: ToSql, D: ToSql, E: ToSql, F: ToSql> ToRow for (A, B, C, D, E, F) {
    type Columns = And4<A, B, C, D, And<E, And<F, End>>>;

    ghost inside = { λ v. and4 v.0 v.1 v.2 v.3 (and v.4 (and v.5 end)) };

    fn push_row(&self, row: &mut RowWriter<'_, '_>) -> Result<(), PlacedFault> {
        And4(
            &self.0,
            &self.1,
            &self.2,
            &self.3,
            And(&self.4, And(&self.5, End)),
        )
        .push_to(row)
    }
}

impl<
    'a,
    A: FromSql<'a>,
    B: FromSql<'a>,
    C: FromSql<'a>,
    D: FromSql<'a>,
    E: FromSql<'a>,
    F: FromSql<'a>,
    G: FromSql<'a>,
> FromRow<'a> for (A, B, C, D, E, F, G) {
    type Columns = And4<A, B, C, D, And<E, And<F, And<G, End>>>>;

    ghost inside = { λ v. and4 v.0 v.1 v.2 v.3 (and v.4 (and v.5 (and v.6 end))) };

    fn from_row(row: Self::Columns) -> Self {
        let row!(a, b, c, d, e, f, g) = row;
        (a, b, c, d, e, f, g)
    }
}

impl<A: ToSql, B: ToSql, C: ToSql, D: ToSql, E: ToSql, F: ToSql, G: ToSql> ToRow
    for (A, B, C, D, E, F, G) {
    type Columns = And4<A, B, C, D, And<E, And<F, And<G, End>>>>;

    ghost inside = { λ v. and4 v.0 v.1 v.2 v.3 (and v.4 (and v.5 (and v.6 end))) };

    fn push_row(&self, row: &mut RowWriter<'_, '_>) -> Result<(), PlacedFault> {
        let columns = And4(
            &self.0,
            &self.1,
            &self.2,
            &self.3,
            And(&self.4, And(&self.5, And(&self.6, End))),
        );
        columns.push_to(row)
    }
}

impl<
    'a,
    A: FromSql<'a>,
    B: FromSql<'a>,
    C: FromSql<'a>,
    D: FromSql<'a>,
    E: FromSql<'a>,
    F: FromSql<'a>,
    G: FromSql<'a>,
    H: FromSql<'a>,
> FromRow<'a> for (A, B, C, D, E, F, G, H) {
    type Columns = And8<A, B, C, D, E, F, G, H, End>;

    ghost inside = { λ v. and8 v.0 v.1 v.2 v.3 v.4 v.5 v.6 v.7 end };

    fn from_row(row: Self::Columns) -> Self {
        let row!(a, b, c, d, e, f, g, h) = row;
        (a, b, c, d, e, f, g, h)
    }
}

impl<A: ToSql, B: ToSql, C: ToSql, D: ToSql, E: ToSql, F: ToSql, G: ToSql, H: ToSql> ToRow
    for (A, B, C, D, E, F, G, H) {
    type Columns = And8<A, B, C, D, E, F, G, H, End>;

    ghost inside = { λ v. and8 v.0 v.1 v.2 v.3 v.4 v.5 v.6 v.7 end };

    fn push_row(&self, row: &mut RowWriter<'_, '_>) -> Result<(), PlacedFault> {
        let columns = And8(
            &self.0, &self.1, &self.2, &self.3, &self.4, &self.5, &self.6, &self.7, End,
        );
        columns.push_to(row)
    }
}

impl<
    'a,
    A: FromSql<'a>,
    B: FromSql<'a>,
    C: FromSql<'a>,
    D: FromSql<'a>,
    E: FromSql<'a>,
    F: FromSql<'a>,
    G: FromSql<'a>,
    H: FromSql<'a>,
    I: FromSql<'a>,
> FromRow<'a> for (A, B, C, D, E, F, G, H, I) {
    type Columns = And8<A, B, C, D, E, F, G, H, And<I, End>>;

    ghost inside = { λ v. and8 v.0 v.1 v.2 v.3 v.4 v.5 v.6 v.7 (and v.8 end) };

    fn from_row(row: Self::Columns) -> Self {
        let row!(a, b, c, d, e, f, g, h, i) = row;
        (a, b, c, d, e, f, g, h, i)
    }
}

impl<A: ToSql, B: ToSql, C: ToSql, D: ToSql, E: ToSql, F: ToSql, G: ToSql, H: ToSql, I: ToSql> ToRow
    for (A, B, C, D, E, F, G, H, I) {
    type Columns = And8<A, B, C, D, E, F, G, H, And<I, End>>;

    ghost inside = { λ v. and8 v.0 v.1 v.2 v.3 v.4 v.5 v.6 v.7 (and v.8 end) };

    fn push_row(&self, row: &mut RowWriter<'_, '_>) -> Result<(), PlacedFault> {
        let columns = And8(
            &self.0,
            &self.1,
            &self.2,
            &self.3,
            &self.4,
            &self.5,
            &self.6,
            &self.7,
            And(&self.8, End),
        );
        columns.push_to(row)
    }
}

impl<
    'a,
    A: FromSql<'a>,
    B: FromSql<'a>,
    C: FromSql<'a>,
    D: FromSql<'a>,
    E: FromSql<'a>,
    F: FromSql<'a>,
    G: FromSql<'a>,
    H: FromSql<'a>,
    I: FromSql<'a>,
    J: FromSql<'a>,
> FromRow<'a> for (A, B, C, D, E, F, G, H, I, J) {
    type Columns = And8<A, B, C, D, E, F, G, H, And<I, And<J, End>>>;

    ghost inside = { λ v. and8 v.0 v.1 v.2 v.3 v.4 v.5 v.6 v.7 (and v.8 (and v.9 end)) };

    fn from_row(row: Self::Columns) -> Self {
        let row!(a, b, c, d, e, f, g, h, i, j) = row;
        (a, b, c, d, e, f, g, h, i, j)
    }
}

impl<
    A: ToSql,
    B: ToSql,
    C: ToSql,
    D: ToSql,
    E: ToSql,
    F: ToSql,
    G: ToSql,
    H: ToSql,
    I: ToSql,
    J: ToSql,
> ToRow for (A, B, C, D, E, F, G, H, I, J) {
    type Columns = And8<A, B, C, D, E, F, G, H, And<I, And<J, End>>>;

    ghost inside = { λ v. and8 v.0 v.1 v.2 v.3 v.4 v.5 v.6 v.7 (and v.8 (and v.9 end)) };

    fn push_row(&self, row: &mut RowWriter<'_, '_>) -> Result<(), PlacedFault> {
        let columns = And8(
            &self.0,
            &self.1,
            &self.2,
            &self.3,
            &self.4,
            &self.5,
            &self.6,
            &self.7,
            And(&self.8, And(&self.9, End)),
        );
        columns.push_to(row)
    }
}

impl<
    'a,
    A: FromSql<'a>,
    B: FromSql<'a>,
    C: FromSql<'a>,
    D: FromSql<'a>,
    E: FromSql<'a>,
    F: FromSql<'a>,
    G: FromSql<'a>,
    H: FromSql<'a>,
    I: FromSql<'a>,
    J: FromSql<'a>,
    K: FromSql<'a>,
> FromRow<'a> for (A, B, C, D, E, F, G, H, I, J, K) {
    type Columns = And8<A, B, C, D, E, F, G, H, And<I, And<J, And<K, End>>>>;

    ghost inside = { λ v. and8 v.0 v.1 v.2 v.3 v.4 v.5 v.6 v.7 (and v.8 (and v.9 (and v.10 end))) };

    fn from_row(row: Self::Columns) -> Self {
        let row!(a, b, c, d, e, f, g, h, i, j, k) = row;
        (a, b, c, d, e, f, g, h, i, j, k)
    }
}

impl<
    A: ToSql,
    B: ToSql,
    C: ToSql,
    D: ToSql,
    E: ToSql,
    F: ToSql,
    G: ToSql,
    H: ToSql,
    I: ToSql,
    J: ToSql,
    K: ToSql,
> ToRow for (A, B, C, D, E, F, G, H, I, J, K) {
    type Columns = And8<A, B, C, D, E, F, G, H, And<I, And<J, And<K, End>>>>;

    ghost inside = { λ v. and8 v.0 v.1 v.2 v.3 v.4 v.5 v.6 v.7 (and v.8 (and v.9 (and v.10 end))) };

    fn push_row(&self, row: &mut RowWriter<'_, '_>) -> Result<(), PlacedFault> {
        let columns = And8(
            &self.0,
            &self.1,
            &self.2,
            &self.3,
            &self.4,
            &self.5,
            &self.6,
            &self.7,
            And(&self.8, And(&self.9, And(&self.10, End))),
        );
        columns.push_to(row)
    }
}

impl<
    'a,
    A: FromSql<'a>,
    B: FromSql<'a>,
    C: FromSql<'a>,
    D: FromSql<'a>,
    E: FromSql<'a>,
    F: FromSql<'a>,
    G: FromSql<'a>,
    H: FromSql<'a>,
    I: FromSql<'a>,
    J: FromSql<'a>,
    K: FromSql<'a>,
    L: FromSql<'a>,
> FromRow<'a> for (A, B, C, D, E, F, G, H, I, J, K, L) {
    type Columns = And8<A, B, C, D, E, F, G, H, And4<I, J, K, L, End>>;

    ghost inside = { λ v. and8 v.0 v.1 v.2 v.3 v.4 v.5 v.6 v.7 (and4 v.8 v.9 v.10 v.11 end) };

    fn from_row(row: Self::Columns) -> Self {
        let row!(a, b, c, d, e, f, g, h, i, j, k, l) = row;
        (a, b, c, d, e, f, g, h, i, j, k, l)
    }
}

impl<
    A: ToSql,
    B: ToSql,
    C: ToSql,
    D: ToSql,
    E: ToSql,
    F: ToSql,
    G: ToSql,
    H: ToSql,
    I: ToSql,
    J: ToSql,
    K: ToSql,
    L: ToSql,
> ToRow for (A, B, C, D, E, F, G, H, I, J, K, L) {
    type Columns = And8<A, B, C, D, E, F, G, H, And4<I, J, K, L, End>>;

    ghost inside = { λ v. and8 v.0 v.1 v.2 v.3 v.4 v.5 v.6 v.7 (and4 v.8 v.9 v.10 v.11 end) };

    fn push_row(&self, row: &mut RowWriter<'_, '_>) -> Result<(), PlacedFault> {
        let columns = And8(
            &self.0,
            &self.1,
            &self.2,
            &self.3,
            &self.4,
            &self.5,
            &self.6,
            &self.7,
            And4(&self.8, &self.9, &self.10, &self.11, End),
        );
        columns.push_to(row)
    }
}
