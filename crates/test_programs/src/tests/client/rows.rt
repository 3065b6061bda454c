//! The row of a DataRow message, which is read by places, by names, by an index and as a struct.
ghost use Rattle.postgres_types.specs.CompositeFields.{and, end};

use pg_client::{Column, ColumnRefs, FromRow, PlacedFault, Row, RowIndex, RowWriter, ToRow};
use postgres_types::composite::{And, End};
use postgres_types::{BytesMut, Type, from_row, row};
use std::alloc::Global;
use std::test::Fail;
use test_support::{hoard, holds, same};

/// Three columns, of int4, text and bool.
pub fn item_columns() -> [Column; 3] {
    [
        Column::new("id", Type::INT4),
        Column::new("name", Type::TEXT),
        Column::unnamed(Type::BOOL),
    ]
}

/// 7, `ja` and true.
const ITEM: [u8; 21] = [
    0, 3, 0, 0, 0, 4, 0, 0, 0, 7, 0, 0, 0, 2, b'j', b'a', 0, 0, 0, 1, 1,
];

#[test]
fn a_row_has_its_columns(_rt: HostRuntime) -> Result<(), Fail> {
    let columns = item_columns();
    let row = Row::new(&ITEM, &columns)?;
    same(
        (row.len(), row.is_empty(), row.columns().len()),
        (3, false, 3),
    )
}

/// Returns the name in the row, borrowed from its body.
fn name_of<'a>(alloc: Global, body: &'a [u8]) -> Result<&'a str, Fail> {
    let columns = item_columns();
    let row = Row::new(body, &columns)?;
    match row.get_by_name::<&'a str>(alloc, "name") {
        Ok(name) => Ok(name),
        Err(fault) => Err(Fail::from(fault)),
    }
}

#[test]
fn texts_are_borrowed_from_the_body(rt: HostRuntime) -> Result<(), Fail> {
    same(name_of(rt.alloc(), &ITEM)?, "ja")
}

#[test]
fn columns_are_read_by_an_index(rt: HostRuntime) -> Result<(), Fail> {
    let alloc = rt.alloc();
    let columns = item_columns();
    let row = Row::new(&ITEM, &columns)?;
    let mut index = RowIndex::new(alloc);
    let row = index.find(&row)?;
    let name = row.get::<&str>(alloc, 1)?;
    let id = row.get_by_name::<i32>(alloc, "id")?;
    same((id, name, row.columns().len()), (7, "ja", 3))
}

#[test]
fn an_index_takes_no_memory_for_a_second_row(rt: HostRuntime) -> Result<(), Fail> {
    let alloc = rt.alloc();
    let columns = item_columns();
    let row = Row::new(&ITEM, &columns)?;
    let mut index = RowIndex::new(alloc);
    index.find(&row)?;
    let blocks = hoard(alloc)?;
    let is_found = index.find(&row).is_ok();
    drop(blocks);
    holds(is_found, "out of memory")
}

/// A struct of a user's own.
#[derive(Drop)]
struct Item {
    id: i32,
    name: Option<String>,
    is_done: bool,
}

impl<'a> FromRow<'a> for Item {
    type Columns = And<i32, And<Option<String>, And<bool, End>>>;

    ghost inside = { λ v. and v.id (and v.name (and v.is_done end)) };

    fn from_row(row: Self::Columns) -> Item {
        from_row!(row => Item { id, name, is_done })
    }
}

impl ToRow for Item {
    type Columns = And<i32, And<Option<String>, And<bool, End>>>;

    ghost inside = { λ v. and v.id (and v.name (and v.is_done end)) };

    fn push_row(&self, row: &mut RowWriter<'_, '_>) -> Result<(), PlacedFault> {
        row!(self => id, name, is_done).push_to(row)
    }
}

#[test]
fn a_struct_is_read_and_written(rt: HostRuntime) -> Result<(), Fail> {
    let alloc = rt.alloc();
    let columns = item_columns();
    let item: Item = Row::new(&ITEM, &columns)?.read(alloc)?;
    let types = [Type::INT4, Type::TEXT, Type::BOOL];
    let mut out = BytesMut::new(alloc);
    RowWriter::tuple(&mut out, &types)?.write(&item)?;
    same(out.as_slice(), &ITEM)
}
