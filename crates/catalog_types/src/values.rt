//! The lines of the values.

use anyhow::{Result, bail};
use own_types::composite::Purchase;
use own_types::domain::{Email, Percentage};
use own_types::enumerated::Level;
use own_types::nested_composite::Address;
use pg_record::{InventoryItem, Mood};
use postgres_types::composite::Composite;
use postgres_types::enums::Enum;
use postgres_types::newtype::Domain;
use postgres_types::{FromSql, Type, check_type, from_sql_nullable};
use std::alloc::Global;
use std::fmt::Debug;
use std::io::Write;

/// Reads the cell as the Rust type for the name of the Postgres type, and prints what was read.
pub(super) fn show_value<W: Write>(
    alloc: Global,
    ty: &Type,
    cell: Option<&[u8]>,
    output: &mut W,
) -> Result<()> {
    match ty.name() {
        "level" => show_as::<Enum<Level>, W>(alloc, ty, cell, output),
        "_level" => show_as::<Vec<Enum<Level>>, W>(alloc, ty, cell, output),
        "Mood" => show_as::<Mood, W>(alloc, ty, cell, output),
        "percentage" => show_as::<Domain<Percentage>, W>(alloc, ty, cell, output),
        "email" => show_as::<Domain<Email>, W>(alloc, ty, cell, output),
        "InventoryItem" => show_as::<InventoryItem, W>(alloc, ty, cell, output),
        "address" => show_as::<Composite<Address>, W>(alloc, ty, cell, output),
        "purchase" => show_as::<Composite<Purchase>, W>(alloc, ty, cell, output),
        "_purchase" => show_as::<Vec<Composite<Purchase>>, W>(alloc, ty, cell, output),
        name => bail!("no Rust type for {name}"),
    }
}

fn show_as<'a, T: FromSql<'a> + Debug + Drop, W: Write>(
    alloc: Global,
    ty: &Type,
    cell: Option<&'a [u8]>,
    output: &mut W,
) -> Result<()> {
    check_type(T::accepts(ty), ty, "T")?;
    let value: T = from_sql_nullable(alloc, ty, cell)?;
    Ok(writeln!(output, "{ty} {value:?}")?)
}
