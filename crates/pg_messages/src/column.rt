//! What a RowDescription says of a column.
ghost use Rattle.std.specs.Prelude.{◌≡◌};
ghost use Rattle.pg_messages.specs.Backend.{column_format, column_values, fields_at};
ghost use Rattle.pg_messages.specs.Reading.{now_of};

use crate::split::{split_int2, split_int4, split_oid, split_string};
use pg_types::types::Oid;

/// The description of a column.
#[derive(Debug, Clone, Copy)]
pub struct ColumnDescription<'a> {
    /// The name of the column.
    pub name: &'a str,
    /// The OID of the table that the column is of; 0 if it is of none.
    pub table: Oid,
    /// The number of the column in the table, from 1; 0 if it is of none.
    pub number: i16,
    /// The OID of the type.
    pub ty: Oid,
    /// The number of bytes of the type; negative if it varies.
    pub size: i16,
    /// The modifier of the type; -1 if it has none.
    pub modifier: i32,
    /// The format of the cells: 0 if it is text, 1 if it is binary.
    pub format: i16,
}

/// Returns the description of the first column, and the bytes after it; `None` if it is truncated,
/// or its name is not UTF-8.
pub fn split_column(bytes: &[u8]) -> Option<(ColumnDescription<'_>, &[u8])>
    ensures { now_of column_values result ≡ fields_at column_format bytes.now }
{
    let (name, rest) = split_string(bytes)?;
    let (table, rest) = split_oid(rest)?;
    let (number, rest) = split_int2(rest)?;
    let (ty, rest) = split_oid(rest)?;
    let (size, rest) = split_int2(rest)?;
    let (modifier, rest) = split_int4(rest)?;
    let (format, rest) = split_int2(rest)?;
    let column = ColumnDescription {
        name,
        table,
        number,
        ty,
        size,
        modifier,
        format,
    };
    Some((column, rest))
}
