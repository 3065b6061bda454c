//! Tuples of each number of values, read from a row and written as one.

use pg_client::{Column, FromRow, Row, RowWriter, ToRow};
use postgres_types::{BytesMut, Type};
use std::alloc::Global;
use std::test::Fail;
use test_support::same;

/// A row of twelve columns of one byte each, which have their numbers as values.
const NUMBERS: [u8; 62] = [
    0, 12, 0, 0, 0, 1, 1, 0, 0, 0, 1, 2, 0, 0, 0, 1, 3, 0, 0, 0, 1, 4, //
    0, 0, 0, 1, 5, 0, 0, 0, 1, 6, 0, 0, 0, 1, 7, 0, 0, 0, 1, 8, //
    0, 0, 0, 1, 9, 0, 0, 0, 1, 10, 0, 0, 0, 1, 11, 0, 0, 0, 1, 12,
];

/// Tests that the tuple is written as the last columns of the row.
fn is_written<T: ToRow>(alloc: Global, count: u8, tuple: &T) -> Result<(), Fail> {
    let mut types = Vec::new(alloc);
    for _ in 0..count {
        types.push(Type::CHAR)?;
    }
    let mut out = BytesMut::new(alloc);
    RowWriter::tuple(&mut out, types.as_slice())?.write(tuple)?;
    let start = NUMBERS.len().saturating_sub(5 * usize::from(count));
    same(out.get(2..), NUMBERS.get(start..))
}

/// Tests that the last columns of the row are read as a tuple that is written as them.
fn is_row<'a, T: FromRow<'a> + ToRow + Drop>(
    alloc: Global,
    numbers: &'a [u8],
    count: u8,
) -> Result<(), Fail> {
    let mut columns = Vec::new(alloc);
    for _ in 0..12 {
        columns.push(Column::unnamed(Type::CHAR))?;
    }
    let mut row = Row::new(numbers, columns.as_slice())?;
    for _ in count..12 {
        row.next::<i8>(alloc)?;
    }
    let tuple: T = row.read(alloc)?;
    is_written(alloc, count, &tuple)
}

/// Tests the tuple of so many values.
fn is_row_of(alloc: Global, count: u8) -> Result<(), Fail> {
    match count {
        1 => is_row::<(i8,)>(alloc, &NUMBERS, count),
        2 => is_row::<(i8, i8)>(alloc, &NUMBERS, count),
        3 => is_row::<(i8, i8, i8)>(alloc, &NUMBERS, count),
        4 => is_row::<(i8, i8, i8, i8)>(alloc, &NUMBERS, count),
        5 => is_row::<(i8, i8, i8, i8, i8)>(alloc, &NUMBERS, count),
        6 => is_row::<(i8, i8, i8, i8, i8, i8)>(alloc, &NUMBERS, count),
        7 => is_row::<(i8, i8, i8, i8, i8, i8, i8)>(alloc, &NUMBERS, count),
        8 => is_row::<(i8, i8, i8, i8, i8, i8, i8, i8)>(alloc, &NUMBERS, count),
        9 => is_row::<(i8, i8, i8, i8, i8, i8, i8, i8, i8)>(alloc, &NUMBERS, count),
        10 => is_row::<(i8, i8, i8, i8, i8, i8, i8, i8, i8, i8)>(alloc, &NUMBERS, count),
        11 => is_row::<(i8, i8, i8, i8, i8, i8, i8, i8, i8, i8, i8)>(alloc, &NUMBERS, count),
        _ => is_row::<(i8, i8, i8, i8, i8, i8, i8, i8, i8, i8, i8, i8)>(alloc, &NUMBERS, count),
    }
}

#[test]
fn tuples_are_rows(rt: HostRuntime) -> Result<(), Fail> {
    for count in 1..=12u8 {
        is_row_of(rt.alloc(), count)?;
    }
    Ok(())
}
