//! A row whose columns are known only at run time, by the names and the OIDs of their types.

use anyhow::Result;
use jiff::Timestamp;
use pg_client::{Column, Row};
use postgres_types::{Fault, FromSql, Oid, Type};
use std::alloc::Global;
use std::fmt::Display;

/// Returns the columns of the fields of a RowDescription message.
fn columns_of(alloc: Global, fields: &[(&str, Oid)]) -> Result<Vec<Column>> {
    let mut columns = Vec::new(alloc);
    for (name, oid) in fields {
        let ty = Type::from_oid(*oid).ok_or(Fault::user("no built-in type"))?;
        columns.push(Column::new(name, ty))?;
    }
    Ok(columns)
}

/// Returns the text of the column at that index, which has that type. A type that is none of these
/// is refused with `WrongType`.
fn show(alloc: Global, row: &Row<'_, '_>, place: usize, ty: &Type) -> Result<String> {
    if ty.is(&Type::INT8) {
        show_as::<i64>(alloc, row, place)
    } else if ty.is(&Type::TIMESTAMPTZ) {
        show_as::<Timestamp>(alloc, row, place)
    } else {
        show_as::<String>(alloc, row, place)
    }
}

/// Returns the text of the value, which is read as a `T`, or `NULL`.
fn show_as<'a, T: FromSql<'a> + Display>(
    alloc: Global,
    row: &Row<'a, '_>,
    place: usize,
) -> Result<String> {
    match row.get::<Option<T>>(alloc, place)? {
        Some(value) => Ok(format!(in alloc; "{value}")?),
        None => Ok(format!(in alloc; "NULL")?),
    }
}

/// The names of four columns, and the OIDs of int8, text, timestamptz and interval.
const FIELDS: [(&str, Oid); 4] = [("id", 20), ("note", 25), ("at", 1184), ("span", 1186)];

/// -7, NULL, 2024-02-29 12:00:00 UTC, and 1 month 2 days and 3 seconds.
const LATE: [u8; 50] = [
    0, 4, 0, 0, 0, 8, 255, 255, 255, 255, 255, 255, 255, 249, 255, 255, 255, 255, //
    0, 0, 0, 8, 0, 2, 181, 130, 196, 120, 16, 0, //
    0, 0, 0, 16, 0, 0, 0, 0, 0, 45, 198, 192, 0, 0, 0, 2, 0, 0, 0, 1,
];

/// Prints the row, a line for each column.
pub fn print_row(rt: HostRuntime) -> Result<()> {
    let alloc = rt.alloc();
    let columns = columns_of(alloc, &FIELDS)?;
    let row = Row::new(&LATE, columns.as_slice())?;
    for (place, column) in columns.iter().enumerate() {
        match show(alloc, &row, place, &column.ty) {
            Ok(text) => println!(rt; "{text}")?,
            Err(fault) => println!(rt; "{fault}")?,
        }
    }
    Ok(row.finish()?)
}
