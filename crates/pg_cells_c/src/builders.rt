//! Builders: a cell is written part after part to the caller's buffer.
//!
//! The buffer begins with room for the header of the cell, and the items follow it. The header is
//! written last, when the number of items is known.
ghost use Rattle.std.specs.Prelude.{◌≡◌, ◌<◌, ◌≤◌, ◌+◌, ◌++◌, ◌^◌, Some, length};
ghost use Rattle.pg_base.specs.Cells.{max_length};
ghost use Rattle.pg_cells_c.specs.Builders.{Closes, Pushes, PushesWritten, goes_on, has_room, empty_builder};
ghost use Rattle.pg_cells_c.specs.Builders.{with_bytes_at};

mod arrays;
mod hstore;
mod params;
mod records;

use crate::buffers::{NO_CELL, write};
use pg_base::protocol::MAX_LEN;

/// The state of a cell that is being built. It is plain data: to remove the items that were pushed
/// since a copy was made, assign the copy.
#[derive(Clone, Copy)]
#[repr(C)]
pub struct Builder {
    /// The length of the cell so far, in bytes, with the room for its header.
    pub len: usize,
    /// The number of items.
    pub count: usize,
    /// 0 if no item is NULL, and 1 otherwise.
    pub has_null: u32,
}

/// Returns a builder without items, after room for a header of `width` bytes.
#[inline(always)]
pub(crate) fn empty_builder(width: usize) -> Builder
    ensures { result ≡ empty_builder width }
{
    Builder {
        len: width,
        count: 0,
        has_null: 0,
    }
}

/// Whether `len` bytes from the offset `at` on are within a buffer of `room` bytes.
#[inline(always)]
fn has_room(at: usize, len: usize, room: usize) -> bool
    ensures { result ≡ has_room at len room }
{
    at <= room && len <= room - at
}

/// If the buffer has room for all of four parts, writes them one after another from the offset `at`
/// on.
#[inline(always)]
#[tactic(auto, using(crate::proofs::BuilderSteps::put, crate::proofs::BuilderSteps::not_put))]
fn write_at(at: usize, first: &[u8], second: &[u8], third: &[u8], fourth: &[u8], out: &mut [u8])
    requires { length first.now + length second.now + length third.now + length fourth.now < 2 ^ 64 }
    ensures { out.new ≡ with_bytes_at at (first.now ++ second.now ++ third.now ++ fourth.now) out.old }
{
    let len = first.len() + second.len() + third.len() + fourth.len();
    if has_room(at, len, out.len()) {
        let (_, rest) = out.split_at_mut(at);
        let (place, rest) = rest.split_at_mut(first.len());
        place.copy_from_slice(first);
        let (place, rest) = rest.split_at_mut(second.len());
        place.copy_from_slice(second);
        let (place, rest) = rest.split_at_mut(third.len());
        place.copy_from_slice(third);
        rest[..fourth.len()].copy_from_slice(fourth);
    }
}

/// If the buffer has room for an item of `len` bytes, counts it in the builder.
#[inline(always)]
fn go_on(builder: &mut Builder, len: usize, is_null: bool, room: usize)
    requires { builder.now.count < max_length }
    ensures { builder.new ≡ goes_on len is_null room builder.old }
{
    if has_room(builder.len, len, room) {
        *builder = Builder {
            len: builder.len + len,
            count: builder.count + 1,
            has_null: if is_null { 1 } else { builder.has_null },
        };
    }
}

/// Pushes an item: these parts, one after another. Returns the length of the item.
#[inline(always)]
#[tactic(auto, using(crate::proofs::PushSteps::pushed, crate::proofs::PushSteps::uncounted))]
fn push_item(
    builder: &mut Builder,
    first: &[u8],
    second: &[u8],
    third: &[u8],
    fourth: &[u8],
    is_null: bool,
    out: &mut [u8],
) -> usize
    requires { length first.now + length second.now + length third.now + length fourth.now < 2 ^ 64 }
    ensures { Pushes (Some (first.now ++ second.now ++ third.now ++ fourth.now)) is_null builder.old builder.new
        out.old out.new result }
{
    if builder.count >= MAX_LEN {
        return NO_CELL;
    }
    let len = first.len() + second.len() + third.len() + fourth.len();
    write_at(builder.len, first, second, third, fourth, out);
    go_on(builder, len, is_null, out.len());
    len
}

/// Pushes an item: these parts, and then the cell of `len` bytes that the caller already wrote
/// after the place for them. Returns the length of the item.
#[inline(always)]
fn push_written_item(
    builder: &mut Builder,
    first: &[u8],
    second: &[u8],
    len: usize,
    out: &mut [u8],
) -> usize
    requires { length first.now + length second.now + len < 2 ^ 64 }
    ensures { PushesWritten (λ cell. Some (first.now ++ second.now ++ cell)) (length first.now + length second.now) len
        builder.old builder.new out.old out.new result }
{
    if builder.count >= MAX_LEN {
        return NO_CELL;
    }
    let item_len = first.len() + second.len() + len;
    if has_room(builder.len, item_len, out.len()) {
        write_at(builder.len, first, second, &[], &[], out);
    }
    go_on(builder, item_len, false, out.len());
    item_len
}

/// Writes the header of a cell that was built and returns the length of the cell. A builder without
/// room for the header has no cell.
#[inline(always)]
#[tactic(auto, using(crate::proofs::PushSteps::closed, crate::proofs::PushSteps::not_closed))]
fn close(builder: &Builder, head: &[u8], out: &mut [u8]) -> usize
    ensures { Closes (length head.now) (Some head.now) builder.now out.old out.new result }
{
    if builder.len < head.len() {
        return NO_CELL;
    }
    if builder.len <= out.len() {
        write(head, out);
    }
    builder.len
}
