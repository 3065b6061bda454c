//! The rows of the table.
ghost use Rattle.postgres_types.specs.CompositeFields.{and, and4, end};

use anyhow::{Result, bail};
use own_types::domain::Percentage;
use own_types::enumerated::Level;
use own_types::nested_composite::Address;
use pg_client::{ColumnRefs, FromRow, PlacedFault, RowWriter, ToRow};
use postgres_types::composite::{And, And4, Composite, End};
use postgres_types::enums::Enum;
use postgres_types::newtype::{Domain, Transparent};
use postgres_types::{from_row, row};
use std::alloc::Global;

/// A row.
#[derive(Debug, PartialEq, Drop)]
pub struct Item {
    id: i64,
    note: Option<String>,
    level: Enum<Level>,
    // (a server describes a column of a domain by its underlying type, but a parameter by the domain)
    share: Transparent<Percentage>,
    homes: Vec<Composite<Address>>,
}

impl<'a> FromRow<'a> for Item {
    type Columns = And4<
        i64,
        Option<String>,
        Enum<Level>,
        Transparent<Percentage>,
        And<Vec<Composite<Address>>, End>,
    >;

    ghost inside = { λ v. and4 v.id v.note v.level v.share (and v.homes end) };

    fn from_row(row: Self::Columns) -> Item {
        from_row!(row => Item { id, note, level, share, homes })
    }
}

impl ToRow for Item {
    type Columns = And4<
        i64,
        Option<String>,
        Enum<Level>,
        Domain<Percentage>,
        And<Vec<Composite<Address>>, End>,
    >;

    ghost inside = { λ v. and4 v.id v.note v.level (record { 0 = v.share.0 }) (and v.homes end) };

    fn push_row(&self, row: &mut RowWriter<'_, '_>) -> Result<(), PlacedFault> {
        let share = Domain(self.share.0);
        And4(
            &self.id,
            &self.note,
            &self.level,
            &share,
            And(&self.homes, End),
        )
        .push_to(row)
    }
}

impl Item {
    /// Creates the row with this id.
    fn new(alloc: Global, id: u32) -> Result<Item> {
        let note = match id % 3 {
            0 => None,
            _ => Some(format!(in alloc; "note {id}")?),
        };
        let mut homes = Vec::new(alloc);
        for home in 0..id % 4 {
            let street = format!(in alloc; "{home}, Main St.")?;
            let city = format!(in alloc; "Bern \"{id}\"")?;
            homes.push(Composite(Address { street, city }))?;
        }
        Ok(Item {
            id: i64::from(id),
            note,
            level: Enum(if id % 2 == 0 {
                Level::Junior
            } else {
                Level::Staff
            }),
            share: Transparent(Percentage((id % 101) as i16)),
            homes,
        })
    }
}

/// Creates the rows of these ids: 0, 1, ..
pub fn make_items(alloc: Global, count: u32) -> Result<Vec<Item>> {
    let mut items = Vec::new(alloc);
    for id in 0..count {
        items.push(Item::new(alloc, id)?)?;
    }
    Ok(items)
}

/// Refuses other rows than these.
pub fn expect(items: &[Item], wanted: &[Item]) -> Result<()> {
    if items != wanted {
        bail!("other rows");
    }
    Ok(())
}
