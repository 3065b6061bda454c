//! Rewriting cells of built-in types.
ghost use Rattle.std.specs.Prelude.{◌++◌};
ghost use Rattle.pg_cells_c.specs.Rewriting.{StoresByRow, WritesByRow, array_rows, rewritten_rows, row_among};

mod arrays;
mod cells;
mod elements;
mod kinds;

use arrays::{array_of, rewrite_array};
use cells::rewrite_cell;
use kinds::kind_of;
use std::alloc::Global;

/// The number of `WrongType`, the fault of a type whose cells are not rewritten.
const WRONG_TYPE: u32 = 3;

/// Rewrites a cell of the type with that OID: returns the length of the new cell, and writes it if
/// the buffer has room for all of it; or returns the number of the fault.
fn rewrite(alloc: Global, oid: u32, cell: &[u8], out: &mut [u8]) -> Result<usize, u32>
    ensures { WritesByRow (row_among (array_rows ++ rewritten_rows) oid) cell.now out.old out.new result }
{
    match array_of(oid) {
        Some(array) => match kind_of(array.element) {
            Some(kind) => rewrite_array(alloc, array, kind, cell, out),
            None => Err(WRONG_TYPE),
        },
        None => match kind_of(oid) {
            Some(kind) => rewrite_cell(kind, cell, out),
            None => Err(WRONG_TYPE),
        },
    }
}

/// Rewrites a cell of the type with that OID, and stores the length of the new cell. `alloc` has no
/// size, so that C passes no argument for it.
#[unsafe(no_mangle)]
pub extern "C" fn pgc_rewrite(
    alloc: Global,
    oid: u32,
    cell: &[u8],
    out: &mut [u8],
    written: &mut usize,
) -> u32
    ensures { StoresByRow (row_among (array_rows ++ rewritten_rows) oid) cell.now out.old out.new
        written.old written.new result }
{
    match rewrite(alloc, oid, cell, out) {
        Ok(len) => {
            *written = len;
            0
        }
        Err(fault) => fault,
    }
}
