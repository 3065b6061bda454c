//! Rewriting cells of one value.
//!
//! A fault is returned as its number, so that no `Fault` has to be dropped: see the comment of the
//! crate.
ghost use Rattle.std.specs.Prelude.{◌≤◌, length};
ghost use Rattle.pg_cells_c.specs.Kinds.{WritesOutcome, rewritten, without_flag};
ghost use Rattle.pg_cells_c.specs.Writings.{WritesInto};
ghost use Rattle.pg_cells_c.specs.declared.rewrite.kinds.Kind.TheVariants as kind;

use super::kinds::Kind;
use crate::bits::pgc_varbit_write;
use crate::buffers::{write, write_parts};
use crate::network::{Inet, pgc_cidr_read, pgc_inet_read};
use crate::numbers::pgc_bool_write;
use pg_base::protocol::{bool_from_sql, varbit_from_sql};
use pg_types::fault::Fault;

/// Rewrites BOOL.
fn rewrite_bool(cell: &[u8], out: &mut [u8]) -> Result<usize, u32>
    ensures { WritesOutcome (rewritten kind.Bool cell.now) out.old out.new result }
{
    match bool_from_sql(cell) {
        Ok(value) => Ok(pgc_bool_write(value, out)),
        Err(fault) => Err(fault.code()),
    }
}

/// Rewrites a text.
fn rewrite_text(cell: &[u8], out: &mut [u8]) -> Result<usize, u32>
    ensures { WritesOutcome (rewritten kind.Text cell.now) out.old out.new result }
{
    match str::from_utf8(cell) {
        Ok(_) => Ok(write(cell, out)),
        Err(_) => Err(Fault::Utf8.code()),
    }
}

/// Rewrites a cell of `width` bytes.
fn rewrite_fixed(width: usize, cell: &[u8], out: &mut [u8]) -> Result<usize, u32>
    ensures { WritesOutcome (rewritten (kind.Fixed width) cell.now) out.old out.new result }
{
    if cell.len() != width {
        return Err(Fault::Size.code());
    }
    Ok(write(cell, out))
}

/// Rewrites BIT and VARBIT.
fn rewrite_bits(cell: &[u8], out: &mut [u8]) -> Result<usize, u32>
    ensures { WritesOutcome (rewritten kind.Bits cell.now) out.old out.new result }
{
    match varbit_from_sql(cell) {
        Ok(bits) => Ok(pgc_varbit_write(bits.len(), bits.bytes(), out)),
        Err(fault) => Err(fault.code()),
    }
}

/// The value of a variable before an address is read into it.
const NO_ADDRESS: Inet = Inet {
    family: 0,
    netmask: 0,
    octets: [0; 16],
};

/// Writes the cell of an address, with the flag 0.
fn write_without_flag(cell: &[u8], out: &mut [u8]) -> usize
    requires { 4 ≤ length cell.now }
    ensures { WritesInto (without_flag cell.now) out.old out.new result }
{
    write_parts(&cell[..2], &[0], &cell[3..], out)
}

/// Rewrites INET.
fn rewrite_inet(cell: &[u8], out: &mut [u8]) -> Result<usize, u32>
    ensures { WritesOutcome (rewritten kind.Inet cell.now) out.old out.new result }
{
    let mut inet = NO_ADDRESS;
    let fault = pgc_inet_read(cell, &mut inet);
    if fault != 0 {
        return Err(fault);
    }
    Ok(write_without_flag(cell, out))
}

/// Rewrites CIDR.
fn rewrite_cidr(cell: &[u8], out: &mut [u8]) -> Result<usize, u32>
    ensures { WritesOutcome (rewritten kind.Cidr cell.now) out.old out.new result }
{
    let mut cidr = NO_ADDRESS;
    let fault = pgc_cidr_read(cell, &mut cidr);
    if fault != 0 {
        return Err(fault);
    }
    Ok(write_without_flag(cell, out))
}

/// Rewrites a cell of that format: returns the length of the new cell, and writes it if the buffer
/// has room for all of it; or returns the number of the fault of the first check that the cell
/// fails.
pub(crate) fn rewrite_cell(kind: Kind, cell: &[u8], out: &mut [u8]) -> Result<usize, u32>
    ensures { WritesOutcome (rewritten kind cell.now) out.old out.new result }
{
    match kind {
        Kind::Bool => rewrite_bool(cell, out),
        Kind::Bytea => Ok(write(cell, out)),
        Kind::Text => rewrite_text(cell, out),
        Kind::Fixed(width) => rewrite_fixed(width, cell, out),
        Kind::Bits => rewrite_bits(cell, out),
        Kind::Inet => rewrite_inet(cell, out),
        Kind::Cidr => rewrite_cidr(cell, out),
    }
}
