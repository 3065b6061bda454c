//! Building records, and cells that begin with a number of items.
ghost use Rattle.std.specs.Prelude.{◌≡◌, Some, None, true, false};
ghost use Rattle.pg_base.specs.Counts.{count_bytes};
ghost use Rattle.pg_cells_c.specs.Builders.{Closes, Pushes, PushesWritten, count_width, field_bytes, empty_builder};

use super::{Builder, close, empty_builder, push_item, push_written_item};
use crate::buffers::NO_CELL;
use pg_base::protocol::MAX_LEN;

/// The length of a number of items, in bytes.
pub(super) const HEAD_LEN: usize = 4;

/// Begins a record (`record_send`).
#[unsafe(no_mangle)]
pub extern "C" fn pgc_record_open(builder: &mut Builder)
    ensures { builder.new ≡ empty_builder count_width }
{
    *builder = empty_builder(HEAD_LEN);
}

/// Pushes a field: the OID of its type, and the frame of its cell. A cell of more than
/// 2,147,483,647 bytes is not pushed.
#[unsafe(no_mangle)]
#[tactic(auto, using(crate::proofs::PushSteps::no_field))]
pub extern "C" fn pgc_push_field(
    builder: &mut Builder,
    oid: u32,
    cell: &[u8],
    out: &mut [u8],
) -> usize
    ensures { Pushes (field_bytes (oid, Some cell.now)) false builder.old builder.new out.old out.new result }
{
    if cell.len() > MAX_LEN {
        return NO_CELL;
    }
    let len = (cell.len() as i32).to_be_bytes();
    push_item(builder, &oid.to_be_bytes(), &len, cell, &[], false, out)
}

/// Pushes a field that is NULL: the OID of its type, and the frame of NULL.
#[unsafe(no_mangle)]
pub extern "C" fn pgc_push_null_field(builder: &mut Builder, oid: u32, out: &mut [u8]) -> usize
    ensures { Pushes (field_bytes (oid, None)) true builder.old builder.new out.old out.new result }
{
    let len = (-1i32).to_be_bytes();
    push_item(builder, &oid.to_be_bytes(), &len, &[], &[], true, out)
}

/// Pushes a field whose cell of `len` bytes the caller already wrote, 8 bytes after the end of what
/// was built.
#[unsafe(no_mangle)]
pub extern "C" fn pgc_push_written_field(
    builder: &mut Builder,
    oid: u32,
    len: usize,
    out: &mut [u8],
) -> usize
    ensures { PushesWritten (λ cell. field_bytes (oid, Some cell)) 8 len builder.old builder.new out.old out.new
        result }
{
    if len > MAX_LEN {
        return NO_CELL;
    }
    let prefix = (len as i32).to_be_bytes();
    push_written_item(builder, &oid.to_be_bytes(), &prefix, len, out)
}

/// Writes the number of items. There is no cell of more than 2,147,483,647 items.
#[inline(always)]
#[tactic(auto, using(crate::proofs::PushSteps::no_count))]
pub(super) fn close_count(builder: &Builder, out: &mut [u8]) -> usize
    ensures { Closes count_width (count_bytes builder.now.count) builder.now out.old out.new result }
{
    if builder.count > MAX_LEN {
        return NO_CELL;
    }
    close(builder, &(builder.count as i32).to_be_bytes(), out)
}

/// Writes the number of fields of a record. There is no cell of more than 2,147,483,647 fields.
#[unsafe(no_mangle)]
pub extern "C" fn pgc_record_close(builder: &Builder, out: &mut [u8]) -> usize
    ensures { Closes count_width (count_bytes builder.now.count) builder.now out.old out.new result }
{
    close_count(builder, out)
}
