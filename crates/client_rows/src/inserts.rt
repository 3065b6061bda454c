//! The rows that are inserted.

use crate::Server;
use crate::source::Source;
use anyhow::Result;
use pg_client::catalog::Catalog;
use pg_messages::frontend::sync;
use postgres_types::Type;
use std::alloc::Global;

/// So many rows are sent before their answers are received.
const BATCH: usize = 500;

/// Inserts the rows by the statement `insert`.
pub fn insert(
    alloc: Global,
    link: &mut Server,
    catalog: &Catalog,
    types: &[Type],
    rows: &[Source<'_>],
) -> Result<()> {
    for batch in rows.chunks(BATCH) {
        for row in batch {
            link.execute("insert", types, row)?;
        }
        sync(&mut link.out)?;
        link.exchange(alloc, catalog)?;
    }
    Ok(())
}
