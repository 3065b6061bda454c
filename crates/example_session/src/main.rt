//! A session with a server: types and a table are made, rows are inserted, selected and copied, the
//! server refuses rows, and a COPY is cancelled.
//!
//! Standard input is what the server sends, and standard output what it receives:
//! `scripts/over-socket` joins them to a server's socket. Standard error tells what was done. The
//! arguments are the user and the database.
#![tactic(auto)]

mod copies;
mod item;

use anyhow::{Result, bail};
use copies::{cancel_copy, copy_out, push_rows};
use example_link::Link;
use item::{Item, expect, make_items};
use pg_client::catalog::{Catalog, QUERY, TypeRow};
use pg_messages::frontend::{sync, terminate};
use postgres_types::Type;
use std::alloc::Global;
use std::env;
use std::io::{Stderr, Stdin, Stdout, Write};

/// The statements that make the types and the table.
const CREATE: &str = "\
CREATE TYPE level AS ENUM ('junior', 'senior', 'staff');
CREATE DOMAIN percentage AS smallint CHECK (VALUE BETWEEN 0 AND 100);
CREATE TYPE address AS (street text, city text);
CREATE TABLE item (id int8 PRIMARY KEY, note text, level level, share percentage, homes address[])";

/// The statement that inserts a row.
const INSERT: &str = "INSERT INTO item VALUES ($1, $2, $3, $4, $5)";

/// The number of rows.
const COUNT: u32 = 1_000;

const SELECT: &str = "SELECT * FROM item ORDER BY id";

/// The connection to the server.
type Server = Link<Stdin, Stdout>;

fn main(rt: HostRuntime) -> Result<()> {
    let alloc = rt.alloc();
    let mut args = env::args(&rt)?;
    let (Some(user), Some(database)) = (args.nth(1), args.next()) else {
        bail!("usage: example_session USER DATABASE");
    };
    let items = make_items(alloc, COUNT)?;
    let built_in = Catalog::built_in(alloc)?;
    let mut link = Link::new(alloc, rt.stdin(), rt.stdout())?;
    link.start(alloc, user.as_str(), database.as_str(), &built_in)?;
    let table = create(alloc, &mut link, &built_in)?;
    let mut log = rt.stderr();
    insert_and_select(alloc, &mut link, &table, items.as_slice(), &mut log)?;
    copy_out_and_in(alloc, &mut link, &table, items.as_slice(), &mut log)?;
    terminate(&mut link.out)?;
    link.send()
}

/// The types of the server, and those of the table's columns.
#[derive(Drop)]
struct Table {
    catalog: Catalog,
    types: Vec<Type>,
}

/// Makes the table.
fn create(alloc: Global, link: &mut Server, built_in: &Catalog) -> Result<Table> {
    link.run(alloc, CREATE, built_in)?;
    let types = link.select(alloc, QUERY, built_in)?;
    let catalog = Catalog::new(alloc, types.rows::<TypeRow>(alloc)?.as_slice())?;
    let types = link.prepare(alloc, "insert", INSERT, &catalog)?;
    Ok(Table { catalog, types })
}

/// Inserts the rows, selects them, and inserts them once more, which the server refuses: it skips what
/// follows the first row up to the Sync, and is ready after that.
fn insert_and_select(
    alloc: Global,
    link: &mut Server,
    table: &Table,
    items: &[Item],
    log: &mut Stderr,
) -> Result<()> {
    insert(link, table.types.as_slice(), items)?;
    link.exchange(alloc, &table.catalog)?;
    let selected = link.select(alloc, SELECT, &table.catalog)?;
    expect(selected.rows::<Item>(alloc)?.as_slice(), items)?;
    writeln!(log, "inserted and selected {} rows", items.len())?;
    insert(link, table.types.as_slice(), items)?;
    if let Err(error) = link.exchange(alloc, &table.catalog) {
        writeln!(log, "inserted nothing: {error}")?;
        link.finish(alloc, &table.catalog)?;
    }
    Ok(())
}

/// Appends the messages that insert the rows. The server inserts all or none, since one Sync follows
/// them.
fn insert(link: &mut Server, types: &[Type], items: &[Item]) -> Result<()> {
    for item in items {
        link.execute("insert", types, item)?;
    }
    Ok(sync(&mut link.out)?)
}

/// Copies the rows out, cancels to copy them in, and copies them in.
fn copy_out_and_in(
    alloc: Global,
    link: &mut Server,
    table: &Table,
    items: &[Item],
    log: &mut Stderr,
) -> Result<()> {
    let selected = link.select(alloc, SELECT, &table.catalog)?;
    let copied = copy_out(alloc, link, selected.columns.as_slice())?;
    expect(copied.as_slice(), items)?;
    writeln!(log, "copied {} rows out", copied.len())?;
    link.run(alloc, "TRUNCATE item", &table.catalog)?;
    cancel_copy(link, table.types.as_slice(), items)?;
    if let Err(error) = link.exchange(alloc, &table.catalog) {
        writeln!(log, "copied nothing in: {error}")?;
        link.finish(alloc, &table.catalog)?;
    }
    push_rows(link, table.types.as_slice(), items)?;
    link.end_copy()?;
    link.exchange(alloc, &table.catalog)?;
    let selected = link.select(alloc, SELECT, &table.catalog)?;
    expect(selected.rows::<Item>(alloc)?.as_slice(), items)?;
    Ok(writeln!(log, "copied {} rows in", items.len())?)
}
