//! The rows of the catalog's query, as they are read of its columns.
ghost use Rattle.postgres_types.specs.CompositeFields.{and, and8, end};

use super::TypeRow;
use crate::from_row::FromRow;
use postgres_types::composite::{And, And8, End};
use postgres_types::{Oid, from_row, row};

impl<'a> FromRow<'a> for TypeRow<'a> {
    type Columns = And8<
        Oid,
        &'a str,
        &'a str,
        i8,
        Oid,
        Oid,
        Vec<&'a str>,
        Vec<&'a str>,
        And<Vec<Oid>, End>,
    >;

    ghost inside = { λ v. and8 v.oid v.name v.schema v.kind v.element v.base v.labels v.field_names
        (and v.field_types end) };

    fn from_row(row: Self::Columns) -> TypeRow<'a> {
        from_row!(row => TypeRow {
            oid, name, schema, kind, element, base, labels, field_names, field_types
        })
    }
}
