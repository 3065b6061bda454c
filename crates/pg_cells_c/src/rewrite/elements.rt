//! Rewriting the elements of arrays, one after another.
//!
//! A fault is returned as its number, so that no `Fault` has to be dropped: see the comment of the
//! crate.
ghost use Rattle.std.specs.Prelude.{◌<◌, ◌≤◌, ◌^◌, IfOk, IfSome, Some, length, true};
ghost use Rattle.pg_base.specs.Cells.{cell_of, max_length};
ghost use Rattle.pg_cells_c.specs.Elements.{WritesFrame, WritesFrames, rewritten_cell, rewritten_cells};

use super::cells::rewrite_cell;
use super::kinds::Kind;
use crate::buffers::write;
use crate::frames::pgc_null_write;
use pg_base::protocol::ArrayCells;
use pg_types::fault::Fault;

/// The length of a length prefix, in bytes.
const PREFIX_LEN: usize = 4;

/// How elements are rewritten: the format of their cells, and whether an element may be NULL.
#[derive(Clone, Copy)]
pub(super) struct Elements {
    pub kind: Kind,
    pub nullable: bool,
}

/// The frames of rewritten elements: their number, their length in bytes, and whether one of them
/// is that of NULL.
#[derive(Clone, Copy)]
pub(super) struct Frames {
    pub count: usize,
    pub len: usize,
    pub has_null: bool,
}

/// Rewrites the cell of an element, and writes its frame if the buffer has room for all of it.
/// Returns the length of the frame.
fn rewrite_frame(kind: Kind, cell: &[u8], out: &mut [u8]) -> Result<usize, u32>
    requires { length cell.now ≤ max_length }
    ensures { WritesFrame (rewritten_cell kind true (Some cell.now)) out.old out.new result }
{
    let prefix_len = PREFIX_LEN.min(out.len());
    let (prefix, rest) = out.split_at_mut(prefix_len);
    let len = rewrite_cell(kind, cell, rest)?;
    write(&(len as i32).to_be_bytes(), prefix);
    Ok(PREFIX_LEN + len)
}

/// Rewrites an element, as [`rewrite_frame`] does. NULL is refused with `WasNull` if no element may
/// be NULL.
fn rewrite_element(elements: Elements, cell: Option<&[u8]>, out: &mut [u8]) -> Result<usize, u32>
    requires { IfSome cell (λ it. length it.now ≤ max_length) }
    ensures { WritesFrame (rewritten_cell elements.kind elements.nullable (cell_of cell.entry))
        out.old out.new result }
{
    match cell {
        Some(cell) => rewrite_frame(elements.kind, cell, out),
        None if elements.nullable => Ok(pgc_null_write(out)),
        None => Err(Fault::WasNull.code()),
    }
}

/// Rewrites the elements that are left, and writes their frames if the buffer has room for all of
/// them. If it has not, its content afterwards is not specified. Bytes that follow the last element
/// are refused.
pub(super) fn rewrite_elements(
    mut cells: ArrayCells<'_>,
    elements: Elements,
    out: &mut [u8],
) -> Result<Frames, u32>
    requires { length cells.bytes < 2 ^ 64 }
    ensures frames { WritesFrames (rewritten_cells elements.kind elements.nullable cells.entry.left cells.entry.bytes)
        out.old out.new result }
    ensures len { IfOk result (λ f. f.len ≤ length cells.entry.bytes) }
{
    let count = cells.len();
    let mut len = 0;
    let mut has_null = false;
    while let Some(cell) = cells.next() {
        let cell = match cell {
            Ok(cell) => cell,
            Err(fault) => return Err(fault.code()),
        };
        let start = out.len().min(len);
        let (_, rest) = out.split_at_mut(start);
        len += rewrite_element(elements, cell, rest)?;
        has_null |= cell.is_none();
    }
    Ok(Frames {
        count,
        len,
        has_null,
    })
}
