//! Frames: cells with their length prefixes.
ghost use Rattle.std.specs.Prelude.{◌≡◌, ◌≤◌, ◌+◌, ◌++◌, IfOk, drop, length, take};
ghost use Rattle.std.specs.Int.{to_be_bytes, w32};
ghost use Rattle.pg_base.specs.Cells.{cell_of, frame, max_length};
ghost use Rattle.pg_base.specs.Counts.{number_width};
ghost use Rattle.pg_base.specs.Appending.{Appends, Extends, HasRoomFor, Measures};

use crate::fault::Fault;
use bytes::BytesMut;
use std::alloc::Global;

/// The greatest length or count that a prefix of 4 bytes can hold: `i32::MAX`.
pub const MAX_LEN: usize = 2_147_483_647;

/// Appends the frame of a cell (`None` is NULL): its length in 4 bytes, big-endian, and its bytes.
/// The frame of NULL is the length -1. A cell of more than 2,147,483,647 bytes is refused with
/// `Transmit`.
#[inline(always)]
pub fn frame_to_sql(_alloc: Global, cell: Option<&[u8]>, out: &mut BytesMut) -> Result<(), Fault>
    ensures { Appends (frame (cell_of cell.entry)) out.old out.new result }
{
    out.reserve(frame_len(cell)?)?;
    extend_by_frame(cell, out);
    Ok(())
}

/// Returns the length of the frame of the cell.
#[inline(always)]
pub(super) fn frame_len(cell: Option<&[u8]>) -> Result<usize, Fault>
    ensures len { Measures (frame (cell_of cell.entry)) result }
    ensures short { IfOk result (λ n. n ≤ number_width + max_length) }
{
    let Some(bytes) = cell else {
        return Ok(4);
    };
    if bytes.len() > MAX_LEN {
        return Err(Fault::Transmit);
    }
    Ok(4 + bytes.len())
}

/// Appends the frame of the cell, which must have one. There must be room for it.
pub(super) fn extend_by_frame(cell: Option<&[u8]>, out: &mut BytesMut)
    requires { HasRoomFor (frame (cell_of cell)) out.now.spare }
    ensures { Extends (frame (cell_of cell.entry)) out.old out.new }
{
    match cell {
        None => out.extend_reserved(&(-1i32).to_be_bytes()),
        // The width of most numbers: one call appends length and bytes.
        Some([a, b, c, d]) => out.extend_reserved(&[0, 0, 0, 4, *a, *b, *c, *d]),
        Some(bytes) => {
            out.extend_reserved(&(bytes.len() as i32).to_be_bytes());
            out.extend_reserved(bytes);
        }
    }
}

/// Overwrites the 4 bytes from offset `at` with the number, big-endian.
pub fn set_number(at: usize, number: u32, out: &mut BytesMut)
    requires { at + number_width ≤ length out.old.items }
    ensures items { out.new.items
        ≡ take at out.old.items ++ (to_be_bytes w32 number ++ drop (at + number_width) out.old.items) }
    ensures spare { out.new.spare ≡ out.old.spare }
{
    out.as_mut_slice()[at..at + 4].copy_from_slice(&number.to_be_bytes());
}
