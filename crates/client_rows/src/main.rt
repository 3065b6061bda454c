//! A client that selects the rows of the table `source`, of 15 columns, and inserts them into the
//! table `target`, which `scripts/bench --rows` measures beside one over libpq.
//!
//! Standard input is what the server sends, and standard output what it receives. The arguments are
//! the user, the database, and `select` or `insert`, which selects too. Standard error tells how
//! many rows there are, and the checksum of their values.
#![tactic(auto)]

mod inserts;
mod source;

use anyhow::{Result, bail};
use example_link::Link;
use inserts::insert;
use pg_client::catalog::Catalog;
use pg_client::{Row, columns};
use pg_messages::frontend::terminate;
use pg_messages::message::Message;
use source::Source;
use std::alloc::Global;
use std::env;
use std::io::{Stdin, Stdout, Write};

const SELECT: &str = "TABLE source";

/// The statement that inserts a row.
const INSERT: &str = "\
INSERT INTO target VALUES ($1, $2, $3, $4, $5, $6, $7, $8, $9, $10, $11, $12, $13, $14, $15)";

/// The connection to the server.
type Server = Link<Stdin, Stdout>;

fn main(rt: HostRuntime) -> Result<()> {
    let alloc = rt.alloc();
    let mut args = env::args(&rt)?;
    let (Some(user), Some(database), Some(what)) = (args.nth(1), args.next(), args.next()) else {
        bail!("usage: client_rows USER DATABASE select|insert");
    };
    let catalog = Catalog::built_in(alloc)?;
    let mut link = Link::new(alloc, rt.stdin(), rt.stdout())?;
    link.start(alloc, user.as_str(), database.as_str(), &catalog)?;
    let sum = match what.as_str() {
        "insert" => select_and_insert(alloc, &mut link, &catalog)?,
        _ => select(alloc, &mut link, &catalog)?,
    };
    let mut log = rt.stderr();
    writeln!(log, "{} {:016x}", sum.rows, sum.sum)?;
    terminate(&mut link.out)?;
    link.send()
}

/// The number of rows, and their checksum.
#[derive(Clone, Copy)]
struct Sum {
    rows: u64,
    sum: u64,
}

impl Sum {
    /// That of no rows.
    fn new() -> Sum {
        Sum { rows: 0, sum: 0 }
    }

    /// Adds a row.
    fn add(&mut self, row: &Source<'_>) {
        self.rows = self.rows.wrapping_add(1);
        self.sum = self.sum.wrapping_mul(31).wrapping_add(row.sum());
    }
}

/// Selects the rows, each of which is read as it comes.
fn select(alloc: Global, link: &mut Server, catalog: &Catalog) -> Result<Sum> {
    link.ask(SELECT)?;
    let mut described = Vec::new(alloc);
    let mut sum = Sum::new();
    for _ in 0..u64::MAX {
        match link.next()? {
            Message::RowDescription {
                count,
                columns: descriptions,
            } => described = columns(alloc, count, descriptions, catalog)?,
            Message::DataRow(body) => {
                let row: Source<'_> = Row::new(body, described.as_slice())?.read(alloc)?;
                sum.add(&row);
            }
            Message::ReadyForQuery(_) => return Ok(sum),
            _ => {}
        }
    }
    bail!("messages without end")
}

/// Selects the rows, and then inserts them.
fn select_and_insert(alloc: Global, link: &mut Server, catalog: &Catalog) -> Result<Sum> {
    let selected = link.select(alloc, SELECT, catalog)?;
    let rows = selected.rows::<Source<'_>>(alloc)?;
    let mut sum = Sum::new();
    for row in &rows {
        sum.add(row);
    }
    let types = link.prepare(alloc, "insert", INSERT, catalog)?;
    insert(alloc, link, catalog, types.as_slice(), rows.as_slice())?;
    Ok(sum)
}
