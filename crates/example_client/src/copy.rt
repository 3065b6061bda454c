//! The ids of a binary COPY in a slice, and the faults of what is refused.

use anyhow::Result;
use pg_client::{Column, CopyRows};
use postgres_types::Type;
use std::alloc::Global;

/// Reads the ids of a binary COPY.
fn read_ids(alloc: Global, bytes: &[u8], columns: &[Column]) -> Result<Vec<i64>> {
    let mut ids = Vec::new(alloc);
    for row in CopyRows::new(bytes, columns)? {
        let (id, _note): (i64, Option<&str>) = row?.read(alloc)?;
        ids.push(id)?;
    }
    Ok(ids)
}

/// `COPY (SELECT id, note FROM event) TO STDOUT (FORMAT binary)`: 5 and `ja`, and 6 and NULL.
const COPY: &[u8] = b"PGCOPY\n\xff\r\n\0\0\0\0\0\0\0\0\0\
    \0\x02\0\0\0\x08\0\0\0\0\0\0\0\x05\0\0\0\x02ja\
    \0\x02\0\0\0\x08\0\0\0\0\0\0\0\x06\xff\xff\xff\xff\xff\xff";

/// Returns the text of the ids of a binary COPY, or of the fault.
fn describe(alloc: Global, bytes: &[u8]) -> Result<String> {
    let columns = [
        Column::new("id", Type::INT8),
        Column::new("note", Type::TEXT),
    ];
    match read_ids(alloc, bytes, &columns) {
        Ok(ids) => Ok(format!(in alloc; "{ids:?}")?),
        Err(fault) => Ok(format!(in alloc; "{fault}")?),
    }
}

/// Prints the ids of a COPY, and why a part of it is refused.
pub fn print_ids(rt: HostRuntime) -> Result<()> {
    let alloc = rt.alloc();
    println!(rt; "{}", describe(alloc, COPY)?)?;
    println!(rt; "{}", describe(alloc, &COPY[..50])?)?;
    Ok(())
}
