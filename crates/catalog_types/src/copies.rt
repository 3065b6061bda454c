//! The rows of a binary COPY.

use anyhow::{Result, bail};
use pg_client::catalog::TypeRow;
use postgres_types::{Oid, Type, read_value};
use std::alloc::Global;

/// The length of the header before the rows: the signature, the flags, and the length of an
/// extension, which is 0 here.
const HEADER: usize = 19;

/// Reads the rows of the catalog.
pub(super) fn read_rows<'a>(alloc: Global, buf: &mut &'a [u8]) -> Result<Vec<TypeRow<'a>>> {
    let most = begin(buf)?;
    let mut rows = Vec::new(alloc);
    for _ in 0..most {
        if !is_tuple(buf, 9)? {
            return Ok(rows);
        }
        rows.push(read_row(alloc, buf)?)?;
    }
    bail!("no trailer")
}

/// Reads a row of the catalog.
fn read_row<'a>(alloc: Global, buf: &mut &'a [u8]) -> Result<TypeRow<'a>> {
    Ok(TypeRow {
        oid: read_value(alloc, &Type::OID, buf)?,
        name: read_value(alloc, &Type::NAME, buf)?,
        schema: read_value(alloc, &Type::NAME, buf)?,
        kind: read_value(alloc, &Type::CHAR, buf)?,
        element: read_value(alloc, &Type::OID, buf)?,
        base: read_value(alloc, &Type::OID, buf)?,
        labels: read_value(alloc, &Type::NAME_ARRAY, buf)?,
        field_names: read_value(alloc, &Type::NAME_ARRAY, buf)?,
        field_types: read_value(alloc, &Type::OID_ARRAY, buf)?,
    })
}

/// The OID of a type, and the cell of a value of it.
type Value<'a> = (Oid, Option<&'a [u8]>);

/// Reads the rows of an OID and a value.
pub(super) fn read_values<'a>(alloc: Global, buf: &mut &'a [u8]) -> Result<Vec<Value<'a>>> {
    let most = begin(buf)?;
    let mut values = Vec::new(alloc);
    for _ in 0..most {
        if !is_tuple(buf, 2)? {
            return Ok(values);
        }
        let oid = read_value(alloc, &Type::OID, buf)?;
        let cell = read_value(alloc, &Type::BYTEA, buf)?;
        values.push((oid, cell))?;
    }
    bail!("no trailer")
}

/// Skips the header. Returns a number that is greater than that of the rows.
fn begin(buf: &mut &[u8]) -> Result<usize> {
    let Some((_, rest)) = buf.split_at_checked(HEADER) else {
        bail!("no header");
    };
    *buf = rest;
    Ok(rest.len())
}

/// Skips the number of columns. Returns whether a row follows; otherwise it was the trailer.
fn is_tuple(buf: &mut &[u8], columns: i16) -> Result<bool> {
    let Some((count, rest)) = buf.split_first_chunk::<2>() else {
        bail!("no trailer");
    };
    *buf = rest;
    match i16::from_be_bytes(*count) {
        -1 => Ok(false),
        count if count == columns => Ok(true),
        count => bail!("a row of {count} columns"),
    }
}
