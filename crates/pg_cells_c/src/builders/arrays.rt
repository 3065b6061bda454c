//! Building arrays. Their elements are pushed as parameters are.
ghost use Rattle.std.specs.Prelude.{◌≡◌, Some, None, true, false};
ghost use Rattle.pg_base.specs.Cells.{frame};
ghost use Rattle.pg_cells_c.specs.Builders.{Closes, Pushes, PushesWritten, array_head_in, array_width, empty_builder};

use super::{Builder, close, empty_builder, push_item, push_written_item};
use crate::buffers::NO_CELL;
use pg_base::protocol::MAX_LEN;

/// The length of the header of an array with one dimension.
const HEAD_LEN: usize = 20;

/// Begins an array (`array_send`).
#[unsafe(no_mangle)]
pub extern "C" fn pgc_array_open(builder: &mut Builder)
    ensures { builder.new ≡ empty_builder array_width }
{
    *builder = empty_builder(HEAD_LEN);
}

/// Pushes the frame of an element or a parameter: the length of its cell, and the cell. A cell of
/// more than 2,147,483,647 bytes is not pushed.
#[unsafe(no_mangle)]
#[tactic(auto, using(crate::proofs::PushSteps::pushed_frame, crate::proofs::PushSteps::no_frame))]
pub extern "C" fn pgc_push(builder: &mut Builder, cell: &[u8], out: &mut [u8]) -> usize
    ensures { Pushes (frame (Some cell.now)) false builder.old builder.new out.old out.new result }
{
    if cell.len() > MAX_LEN {
        return NO_CELL;
    }
    let len = (cell.len() as i32).to_be_bytes();
    push_item(builder, &len, cell, &[], &[], false, out)
}

/// Pushes the frame of NULL.
#[unsafe(no_mangle)]
pub extern "C" fn pgc_push_null(builder: &mut Builder, out: &mut [u8]) -> usize
    ensures { Pushes (frame None) true builder.old builder.new out.old out.new result }
{
    push_item(builder, &(-1i32).to_be_bytes(), &[], &[], &[], true, out)
}

/// Pushes the frame of a cell of `len` bytes that the caller already wrote, 4 bytes after the end
/// of what was built.
#[unsafe(no_mangle)]
pub extern "C" fn pgc_push_written(builder: &mut Builder, len: usize, out: &mut [u8]) -> usize
    ensures { PushesWritten (λ cell. frame (Some cell)) 4 len builder.old builder.new out.old out.new result }
{
    if len > MAX_LEN {
        return NO_CELL;
    }
    push_written_item(builder, &(len as i32).to_be_bytes(), &[], len, out)
}

/// Writes the header of an array with that element type. There is no cell of more than
/// 2,147,483,647 elements.
#[unsafe(no_mangle)]
#[tactic(auto, using(crate::proofs::PushSteps::no_array))]
pub extern "C" fn pgc_array_close(builder: &Builder, element_oid: u32, out: &mut [u8]) -> usize
    ensures { Closes array_width (array_head_in element_oid builder.now) builder.now out.old out.new result }
{
    if builder.count > MAX_LEN {
        return NO_CELL;
    }
    let flags = u8::from(builder.has_null != 0);
    let [a, b, c, d] = element_oid.to_be_bytes();
    let [e, f, g, h] = (builder.count as i32).to_be_bytes();
    let head = [
        0, 0, 0, 1, 0, 0, 0, flags, a, b, c, d, e, f, g, h, 0, 0, 0, 1,
    ];
    close(builder, &head, out)
}
