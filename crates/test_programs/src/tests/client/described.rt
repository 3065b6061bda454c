//! The columns of a result and the types of parameters, from the messages that describe them.

use pg_client::catalog::Catalog;
use pg_client::{Column, columns, parameter_types, statement_columns};
use postgres_types::Type;
use std::test::Fail;
use test_support::{displays, hoard, same};

/// An int4, `id`, in the binary format.
const ID: &[u8] = b"id\0\0\0\x40\0\0\x01\0\0\0\x17\0\x04\xff\xff\xff\xff\0\x01";

/// Tests that this is the one column.
fn is_id(columns: &[Column]) -> Result<(), Fail> {
    for column in columns {
        same(column.name.as_ref().map(|own| own.as_str()), Some("id"))?;
        same(&column.ty, &Type::INT4)?;
    }
    same(columns.len(), 1)
}

#[test]
fn columns_are_described(rt: HostRuntime) -> Result<(), Fail> {
    let alloc = rt.alloc();
    let catalog = Catalog::new(alloc, &[])?;
    is_id(columns(alloc, 1, ID, &catalog)?.as_slice())?;
    is_id(statement_columns(alloc, 1, ID, &catalog)?.as_slice())
}

#[test]
fn types_of_parameters_are_found(rt: HostRuntime) -> Result<(), Fail> {
    let alloc = rt.alloc();
    let catalog = Catalog::new(alloc, &[])?;
    let types = parameter_types(alloc, 1, b"\0\0\0\x17", &catalog)?;
    same(types.get(0), Some(&Type::INT4))
}

/// The place at which memory runs out.
#[test]
fn memory_runs_out(rt: HostRuntime) -> Result<(), Fail> {
    let alloc = rt.alloc();
    let catalog = Catalog::built_in(alloc)?;
    let blocks = hoard(alloc)?;
    let found = columns(alloc, 1, ID, &catalog);
    let types = parameter_types(alloc, 1, b"\0\0\0\x17", &catalog);
    drop(blocks);
    let (Err(column), Err(parameter)) = (found, types) else {
        return Err(Fail::from("memory was there"));
    };
    displays(alloc, &column, "column 1: out of memory")?;
    displays(alloc, &parameter, "parameter 1: out of memory")
}
