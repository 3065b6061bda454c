//! Makes the types of a server, and reads values of them. Standard input has two binary COPYs: that
//! of `pg_client::catalog::QUERY`, and one with the OID of a type and a value of it in each row.
//!
//! It prints a line for each type, in the order of the rows: the OID, the schema, the name and the
//! kind; then a line for each row that is refused; and then, for each value, its type and what was
//! read. For an empty input it prints nothing.
#![tactic(auto)]

mod copies;
mod kinds;
mod values;

use anyhow::{Result, bail};
use copies::{read_rows, read_values};
use kinds::show;
use pg_client::catalog::Catalog;
use std::io::{Read, Write};
use values::show_value;

fn main(rt: HostRuntime) -> Result<()> {
    let alloc = rt.alloc();
    let mut input = Vec::new(alloc);
    rt.stdin().read_to_end(&mut input)?;
    if input.is_empty() {
        return Ok(());
    }
    let mut rest = input.as_slice();
    let rows = read_rows(alloc, &mut rest)?;
    let values = read_values(alloc, &mut rest)?;
    let catalog = Catalog::new(alloc, rows.as_slice())?;
    let mut output = rt.stdout();
    for row in &rows {
        if let Some(ty) = catalog.get(row.oid) {
            show(&ty, &mut output)?;
        }
    }
    for refused in catalog.refused() {
        writeln!(output, "{refused}")?;
    }
    for (oid, cell) in &values {
        match catalog.get(*oid) {
            Some(ty) => show_value(alloc, &ty, *cell, &mut output)?,
            None => bail!("no type has OID {oid}"),
        }
    }
    Ok(())
}
