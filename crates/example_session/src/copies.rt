//! Binary COPYs of the table.

use crate::Server;
use crate::item::Item;
use anyhow::Result;
use pg_client::{Column, CopyParts, RowWriter};
use pg_messages::frontend::{copy_fail, query};
use postgres_types::Type;
use std::alloc::Global;

/// Copies the table out, and returns its rows. A message ends anywhere in a row.
pub fn copy_out(alloc: Global, link: &mut Server, columns: &[Column]) -> Result<Vec<Item>> {
    let text = "COPY (SELECT * FROM item ORDER BY id) TO STDOUT (FORMAT binary)";
    query(text, &mut link.out)?;
    link.send()?;
    let mut copy = CopyParts::new(columns);
    let mut items = Vec::new(alloc);
    let mut bytes = Vec::new(alloc);
    for _ in 0..u64::MAX {
        if !link.copy_part(&mut bytes)? {
            break;
        }
        let mut rest = bytes.as_slice();
        take_items(alloc, &mut copy, &mut rest, &mut items)?;
        let after = rest.to_vec(alloc)?;
        bytes = after;
    }
    copy.finish()?;
    Ok(items)
}

/// Appends a COPY of the rows that is cancelled in the middle of a row.
pub fn cancel_copy(link: &mut Server, types: &[Type], items: &[Item]) -> Result<()> {
    push_rows(link, types, items)?;
    let mut row = RowWriter::tuple(&mut link.out, types)?;
    row.push(&0i64)?;
    row.cancel();
    Ok(copy_fail("no more rows", &mut link.out)?)
}

/// Appends a COPY of the rows into the table, without its end.
pub fn push_rows(link: &mut Server, types: &[Type], items: &[Item]) -> Result<()> {
    link.begin_copy("COPY item FROM STDIN (FORMAT binary)")?;
    for item in items {
        link.copy_row(types, item)?;
    }
    Ok(())
}

/// Takes the rows that have come.
fn take_items(
    alloc: Global,
    copy: &mut CopyParts<'_>,
    bytes: &mut &[u8],
    items: &mut Vec<Item>,
) -> Result<()> {
    for _ in 0..bytes.len() {
        match copy.next(bytes)? {
            Some(row) => items.push(row.read(alloc)?)?,
            None => break,
        }
    }
    Ok(())
}
