//! A composite type with eight fields: one of them is a composite value, and one an array of
//! composite values.
ghost use Rattle.std.specs.Prelude.{[], ◌∷◌};
ghost use Rattle.postgres_types.specs.CompositeFields.{and8, end};
ghost use Rattle.postgres_types.specs.Conversion.{ap, codes, refl};

use pg_record::InventoryItem;
use postgres_types::composite::{And8, End, FieldRefs, Record};
use postgres_types::{BytesMut, Fault, Field, UnixTime, from_row, row};
use std::alloc::Global;

/// `CREATE TYPE purchase AS (id int8, customer text, paid bool, placed timestamptz, discount int4,
/// tags text[], gift "InventoryItem", items "InventoryItem"[])`.
#[derive(Debug, PartialEq, Drop)]
pub struct Purchase {
    pub id: i64,
    pub customer: String,
    pub paid: bool,
    pub placed: UnixTime,
    pub discount: Option<i32>,
    pub tags: Vec<String>,
    pub gift: InventoryItem,
    pub items: Vec<InventoryItem>,
}

impl Record for Purchase {
    type Fields = And8<
        i64,
        String,
        bool,
        UnixTime,
        Option<i32>,
        Vec<String>,
        InventoryItem,
        Vec<InventoryItem>,
        End,
    >;

    ghost type_name = { codes "purchase" };

    ghost names = { codes "id" ∷ codes "customer" ∷ codes "paid" ∷ codes "placed" ∷ codes "discount"
        ∷ codes "tags" ∷ codes "gift" ∷ codes "items" ∷ [] };

    ghost inside = { λ v. and8 v.id v.customer v.paid v.placed v.discount v.tags v.gift v.items end };

    ghost names_width = { refl };

    ghost injective = { λ v w. ap (λ r. record {
      id = r.0;
      customer = r.1;
      paid = r.2;
      placed = r.3;
      discount = r.4;
      tags = r.5;
      gift = r.6;
      items = r.7;
    }) };

    fn name() -> &'static str {
        "purchase"
    }

    fn field_names() -> &'static [&'static str] {
        &[
            "id", "customer", "paid", "placed", "discount", "tags", "gift", "items",
        ]
    }

    fn from_row(row: Self::Fields) -> Purchase {
        from_row!(row => Purchase { id, customer, paid, placed, discount, tags, gift, items })
    }

    fn row_to_sql(&self, alloc: Global, fields: &[Field], out: &mut BytesMut) -> Result<(), Fault> {
        let row = row!(self => id, customer, paid, placed, discount, tags, gift, items);
        row.to_fields(alloc, fields, out)
    }
}
