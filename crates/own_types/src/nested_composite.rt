//! A composite type with a composite value and an array of composite values, each of which is a
//! struct.
ghost use Rattle.std.specs.Prelude.{[], ◌∷◌};
ghost use Rattle.postgres_types.specs.CompositeFields.{and, end};
ghost use Rattle.postgres_types.specs.Conversion.{ap, codes, refl};

use postgres_types::composite::{And, Composite, End, FieldRefs, Record};
use postgres_types::{BytesMut, Fault, Field, from_row, row};
use std::alloc::Global;

/// `CREATE TYPE address AS (street text, city text)`.
#[derive(Debug, PartialEq, Drop)]
pub struct Address {
    pub street: String,
    pub city: String,
}

impl Record for Address {
    type Fields = And<String, And<String, End>>;

    ghost type_name = { codes "address" };

    ghost names = { codes "street" ∷ codes "city" ∷ [] };

    ghost inside = { λ v. and v.street (and v.city end) };

    ghost names_width = { refl };

    ghost injective = { λ v w. ap (λ r. record { street = r.0; city = r.1.0 }) };

    fn name() -> &'static str {
        "address"
    }

    fn field_names() -> &'static [&'static str] {
        &["street", "city"]
    }

    fn from_row(row: Self::Fields) -> Address {
        from_row!(row => Address { street, city })
    }

    fn row_to_sql(&self, alloc: Global, fields: &[Field], out: &mut BytesMut) -> Result<(), Fault> {
        row!(self => street, city).to_fields(alloc, fields, out)
    }
}

/// `CREATE TYPE parcel AS (label text, bill_to address, ship_to address[])`.
#[derive(Debug, PartialEq, Drop)]
pub struct Parcel {
    pub label: String,
    pub bill_to: Composite<Address>,
    pub ship_to: Vec<Composite<Address>>,
}

impl Record for Parcel {
    type Fields = And<String, And<Composite<Address>, And<Vec<Composite<Address>>, End>>>;

    ghost type_name = { codes "parcel" };

    ghost names = { codes "label" ∷ codes "bill_to" ∷ codes "ship_to" ∷ [] };

    ghost inside = { λ v. and v.label (and v.bill_to (and v.ship_to end)) };

    ghost names_width = { refl };

    ghost injective = { λ v w. ap (λ r. record { label = r.0; bill_to = r.1.0; ship_to = r.1.1.0 }) };

    fn name() -> &'static str {
        "parcel"
    }

    fn field_names() -> &'static [&'static str] {
        &["label", "bill_to", "ship_to"]
    }

    fn from_row(row: Self::Fields) -> Parcel {
        from_row!(row => Parcel { label, bill_to, ship_to })
    }

    fn row_to_sql(&self, alloc: Global, fields: &[Field], out: &mut BytesMut) -> Result<(), Fault> {
        row!(self => label, bill_to, ship_to).to_fields(alloc, fields, out)
    }
}
