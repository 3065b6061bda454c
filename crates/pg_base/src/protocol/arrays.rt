//! Arrays.
ghost use Rattle.std.specs.Prelude.{suc, zero, pos, ◌≡◌, ◌≤◌, length, Some};
ghost use Rattle.std.specs.Int.{w32};
ghost use Rattle.pg_base.specs.Arrays.{SpellsDimensions, SpellsHead, TakesElement, dimension_checks};
ghost use Rattle.pg_base.specs.Arrays.{head_checks, array_bytes, head_bytes, cells_of, has_long, has_none, total_len};
ghost use Rattle.pg_base.specs.Counts.{ToRead, cell_checks};
ghost use Rattle.pg_types.specs.Faults.{Answers, NeverMemory};
ghost use Rattle.pg_base.specs.Formats.{Decodes, first_fault_of};
ghost use Rattle.pg_base.specs.Appending.{Appends, Extends, HasRoomFor};
ghost use Rattle.pg_base.specs.Cells.{Spells, be, cell_of, frames, max_length};

use super::counts::{Item, Items, split_cell, split_count};
use super::frames::{MAX_LEN, extend_by_frame, set_number};
use crate::fault::Fault;
use crate::types::Oid;
use bytes::BytesMut;
use std::alloc::Global;
use std::marker::Model;

/// The cells of an array that are still to be read; see [`array_from_sql`].
#[derive(Debug, Drop)]
pub struct ArrayCells<'a> {
    items: Items<'a>,
}

impl<'a> Model for ArrayCells<'a> {
    ghost Value = { ToRead };

    ghost view = { λ c. c.items };
}

/// Reads the header of an array (`array_recv`). It has, in 4 bytes each and big-endian, the number
/// of dimensions, the flags, the OID of the element type and, for each dimension, its length and
/// its lower bound. The frames of the elements follow. An array without dimensions has no elements.
///
/// The checks are made in this order: a truncated number of dimensions is refused with `Size`, a
/// negative one with `Count`, truncated flags or a truncated OID with `Size`, more than 1 dimension
/// with `Dimensions`, a truncated dimension with `Size`, and a negative length with `Count`. The
/// flags, the OID and the lower bound are not checked. It does not allocate.
pub fn array_from_sql(_alloc: Global, raw: &[u8]) -> Result<ArrayCells<'_>, Fault>
    ensures outcome { Answers (Decodes SpellsHead (λ b. first_fault_of (head_checks b)) raw.now) result }
    ensures never_memory { NeverMemory result }
{
    let (dimensions, bytes) = split_count(raw)?;
    if bytes.len() < 8 {
        return Err(Fault::Size);
    }
    let (_, bytes) = bytes.split_at(8);
    if dimensions == 0 {
        return Ok(ArrayCells {
            items: Items::new(0, bytes),
        });
    }
    if dimensions > 1 {
        return Err(Fault::Dimensions);
    }
    split_dimension(bytes)
}

/// Reads the length and the lower bound of the only dimension.
fn split_dimension(bytes: &[u8]) -> Result<ArrayCells<'_>, Fault>
    ensures outcome { Answers (Decodes (SpellsDimensions (suc zero))
        (λ s. first_fault_of (dimension_checks (suc zero) s)) bytes.now) result }
    ensures never_memory { NeverMemory result }
{
    if bytes.len() < 8 {
        return Err(Fault::Size);
    }
    let (left, bytes) = split_count(bytes)?;
    let (_, bytes) = bytes.split_at(4);
    Ok(ArrayCells {
        items: Items::new(left, bytes),
    })
}

/// A cell at the front of the bytes.
impl<'a> Item<'a> for Option<&'a [u8]> {
    ghost spells = { λ s cell. Spells s (cell_of cell) };

    ghost checks = { cell_checks };

    #[inline(always)]
    fn split(bytes: &'a [u8]) -> Result<(Option<&'a [u8]>, &'a [u8]), Fault> {
        split_cell(bytes)
    }
}

impl<'a> ArrayCells<'a> {
    /// Returns how many cells are left, according to the header. It does not allocate.
    pub fn len(&self) -> usize
        ensures { result ≡ self.now.left }
    {
        self.items.len()
    }

    /// Returns the frames of the cells that are left, with any trailing bytes. It does not allocate.
    pub fn frames(&self) -> &'a [u8]
        ensures { result.now ≡ self.now.bytes }
    {
        self.items.bytes()
    }

    /// Returns the next cell: its length in 4 bytes, big-endian, and as many bytes; every negative
    /// length is NULL. A truncated length or cell is refused with `Size`, and so are trailing bytes
    /// after the last cell. After a fault, and after the last cell, it returns `None` forever. It
    /// does not allocate.
    #[inline(always)]
    pub fn next(&mut self) -> Option<Result<Option<&'a [u8]>, Fault>>
        ensures { TakesElement self.old result self.new }
    {
        self.items.next()
    }
}

/// The length of the header that is written.
const HEAD_LEN: usize = 20;

/// The offset of the flags in the header.
const FLAGS_AT: usize = 4;

/// The length of a length prefix.
const PREFIX_LEN: usize = 4;

/// Appends an array of one dimension (`array_send`). In 4 bytes each, big-endian, it has the number
/// 1 of dimensions, the flags (1 if a cell is NULL, and 0 otherwise), the OID of the element type,
/// the number of cells, and the lower bound. The frames of the cells follow.
///
/// `scratch` has the bytes of the cells, one after another, and `lens` their lengths (`None` is
/// NULL), which add up to the length of `scratch`. It fails with `Transmit` if the number of cells
/// or the length of a cell exceeds 2,147,483,647. An error, `Memory` included, leaves the buffer's
/// bytes as they were.
pub fn array_to_sql(
    _alloc: Global,
    lower_bound: i32,
    oid: Oid,
    scratch: &[u8],
    lens: &[Option<usize>],
    out: &mut BytesMut,
) -> Result<(), Fault>
    requires { total_len lens.now ≡ length scratch.now }
    ensures { Appends (array_bytes lower_bound oid (cells_of scratch.now lens.now)) out.old out.new result }
{
    if lens.len() > MAX_LEN || has_long(scratch.len(), lens) {
        return Err(Fault::Transmit);
    }
    out.reserve(HEAD_LEN + PREFIX_LEN * lens.len() + scratch.len())?;
    let start = out.len();
    extend_by_head(lower_bound, oid, lens.len(), out);
    // The flags are set after the frames are appended, so that one pass over the lengths is enough.
    let has_null = extend_by_frames(scratch, lens, out);
    set_number(start + FLAGS_AT, u32::from(has_null), out);
    Ok(())
}

/// Whether one of the lengths, whose sum is `total`, does not fit in a length prefix.
fn has_long(total: usize, lens: &[Option<usize>]) -> bool
    requires { total_len lens.now ≡ total }
    ensures { result ≡ has_long lens.now }
{
    if total <= MAX_LEN {
        return false;
    }
    for len in lens {
        if len.unwrap_or(0) > MAX_LEN {
            return true;
        }
    }
    false
}

/// Appends the header of `count` cells, with the flags of cells that are not NULL. There is room
/// for it.
fn extend_by_head(lower_bound: i32, oid: Oid, count: usize, out: &mut BytesMut)
    requires few { count ≤ max_length }
    requires room { 20 ≤ out.now.spare }
    ensures { Extends (Some (head_bytes (pos 0) lower_bound oid (be w32 (pos count)))) out.old out.new }
{
    out.extend_reserved(&1i32.to_be_bytes());
    out.extend_reserved(&0i32.to_be_bytes());
    out.extend_reserved(&oid.to_be_bytes());
    out.extend_reserved(&(count as i32).to_be_bytes());
    out.extend_reserved(&lower_bound.to_be_bytes());
}

/// Appends the frames of the cells. Returns whether one of them is NULL. Each cell has a frame, and
/// there is room for them.
fn extend_by_frames(scratch: &[u8], lens: &[Option<usize>], out: &mut BytesMut) -> bool
    requires whole { total_len lens.now ≡ length scratch.now }
    requires room { HasRoomFor (frames (cells_of scratch.now lens.now)) out.now.spare }
    ensures frames { Extends (frames (cells_of scratch.now lens.now)) out.old out.new }
    ensures null { result ≡ has_none lens.now }
{
    let mut rest = scratch;
    let mut has_null = false;
    for len in lens {
        match *len {
            None => {
                extend_by_frame(None, out);
                has_null = true;
            }
            Some(len) => {
                let (cell, after) = rest.split_at(len);
                extend_by_frame(Some(cell), out);
                rest = after;
            }
        }
    }
    has_null
}
