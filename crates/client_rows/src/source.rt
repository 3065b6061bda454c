//! A row of the table.
ghost use Rattle.postgres_types.specs.CompositeFields.{and, and4, and8, end};

use jiff::civil;
use pg_client::{ColumnRefs, FromRow, PlacedFault, RowWriter, ToRow};
use pg_numbers::Float8;
use postgres_types::composite::{And, And4, And8, End};
use postgres_types::{IpInet, UnixTime, from_row, row};
use uuid::Uuid;

/// A row, whose texts and bytes stay where they were received.
#[derive(Debug, Drop)]
pub struct Source<'a> {
    id: i64,
    count: i32,
    rank: i16,
    is_open: bool,
    share: Float8,
    name: &'a str,
    note: Option<&'a str>,
    bytes: &'a [u8],
    at: jiff::Timestamp,
    local: UnixTime,
    day: civil::Date,
    key: Uuid,
    address: IpInet,
    sizes: Vec<i32>,
    tags: Vec<&'a str>,
}

/// The types of its columns.
type SourceColumns<'a> = And8<
    i64,
    i32,
    i16,
    bool,
    Float8,
    &'a str,
    Option<&'a str>,
    &'a [u8],
    And4<
        jiff::Timestamp,
        UnixTime,
        civil::Date,
        Uuid,
        And<IpInet, And<Vec<i32>, And<Vec<&'a str>, End>>>,
    >,
>;

impl<'a> FromRow<'a> for Source<'a> {
    type Columns = SourceColumns<'a>;

    ghost inside = { λ v. and8 v.id v.count v.rank v.is_open v.share v.name v.note v.bytes
        (and4 v.at v.local v.day v.key (and v.address (and v.sizes (and v.tags end)))) };

    fn from_row(row: Self::Columns) -> Source<'a> {
        from_row!(row => Source {
            id, count, rank, is_open, share, name, note, bytes, at, local, day, key, address, sizes,
            tags
        })
    }
}

impl<'a> ToRow for Source<'a> {
    type Columns = SourceColumns<'a>;

    ghost inside = { λ v. and8 v.id v.count v.rank v.is_open v.share v.name v.note v.bytes
        (and4 v.at v.local v.day v.key (and v.address (and v.sizes (and v.tags end)))) };

    fn push_row(&self, row: &mut RowWriter<'_, '_>) -> Result<(), PlacedFault> {
        let columns =
            row!(self => id, count, rank, is_open, share, name, note, bytes, at, local, day,
            key, address, sizes, tags);
        columns.push_to(row)
    }
}

impl Source<'_> {
    /// Returns the sum of the numbers and of the lengths.
    pub fn sum(&self) -> u64 {
        let mut sum = i64::from(self.count).wrapping_add(i64::from(self.rank));
        for size in &self.sizes {
            sum = sum.wrapping_add(i64::from(*size));
        }
        let numbers = self.id.wrapping_add(sum).cast_unsigned();
        let lengths = self.lengths() as u64;
        self.share
            .to_bits()
            .wrapping_add(numbers)
            .wrapping_add(lengths)
    }

    /// Returns the sum of the lengths.
    fn lengths(&self) -> usize {
        let note = match &self.note {
            Some(note) => note.len(),
            None => 0,
        };
        let mut sum = self.name.len().wrapping_add(note);
        for tag in &self.tags {
            sum = sum.wrapping_add(tag.len());
        }
        sum.wrapping_add(self.bytes.len())
    }
}
