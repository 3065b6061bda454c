//! Count and length prefixes of 4 bytes, the cells after lengths, and the items after counts.
ghost use Rattle.std.specs.Prelude.{◌≡◌, ◌∷◌, [], List, ℕ};
ghost use Rattle.std.specs.Int.{w32};
ghost use Rattle.pg_base.specs.Cells.{IsBe, Spells, cell_of};
ghost use Rattle.pg_base.specs.Counts.{StartsWith, IsCount, TakesNext, ToRead, cell_checks};
ghost use Rattle.pg_base.specs.Counts.{count_checks, has_number};
ghost use Rattle.pg_types.specs.Faults.{Answers, NeverMemory, size};
ghost use Rattle.pg_base.specs.Formats.{Checks, Decodes, first_fault_of};

use super::numbers::int4_from_sql;
use crate::fault::Fault;
use std::marker::Model;

/// Returns the number in the first 4 bytes, big-endian, as of a count or a length prefix, and the
/// bytes after it. Fewer than 4 bytes are refused with `Size`.
#[inline(always)]
pub fn split_number(bytes: &[u8]) -> Result<(i32, &[u8]), Fault>
    ensures outcome { Answers (Decodes (StartsWith (IsBe w32))
        (λ s. first_fault_of ((has_number s, size) ∷ [])) bytes.now) result }
    ensures never_memory { NeverMemory result }
{
    if bytes.len() < 4 {
        return Err(Fault::Size);
    }
    let (head, bytes) = bytes.split_at(4);
    Ok((int4_from_sql(head)?, bytes))
}

/// Returns the count prefix and the bytes after it. A truncated count is refused with `Size`, and a
/// negative one with `Count`.
#[inline(always)]
pub(super) fn split_count(bytes: &[u8]) -> Result<(usize, &[u8]), Fault>
    ensures outcome { Answers (Decodes (StartsWith IsCount) (λ s. first_fault_of (count_checks s)) bytes.now) result }
    ensures never_memory { NeverMemory result }
{
    let (count, bytes) = split_number(bytes)?;
    if count < 0 {
        return Err(Fault::Count);
    }
    Ok((count as usize, bytes))
}

/// Returns the cell of the first frame, and the bytes after it. Each negative length is NULL. Fewer
/// than 4 bytes, or fewer than the length prefix states, are refused with `Size`.
#[inline(always)]
pub fn split_cell(bytes: &[u8]) -> Result<(Option<&[u8]>, &[u8]), Fault>
    ensures outcome { Answers (Decodes (StartsWith (λ s cell. Spells s (cell_of cell)))
        (λ s. first_fault_of (cell_checks s)) bytes.now) result }
    ensures never_memory { NeverMemory result }
{
    let (len, bytes) = split_number(bytes)?;
    if len < 0 {
        return Ok((None, bytes));
    }
    let len = len as usize;
    if bytes.len() < len {
        return Err(Fault::Size);
    }
    let (cell, bytes) = bytes.split_at(len);
    Ok((Some(cell), bytes))
}

/// An item that follows a count, as many times as the count says.
pub(super) trait Item<'a>: Sized + Drop {
    /// The bytes spell the item.
    ghost spells: { List ℕ → Self → Type 0 };

    /// The checks of the item at the front of the bytes.
    ghost checks: { List ℕ → Checks };

    /// Returns the first item and the bytes after it.
    fn split(bytes: &'a [u8]) -> Result<(Self, &'a [u8]), Fault>
        ensures outcome { Answers (Decodes (StartsWith spells) (λ s. first_fault_of (checks s)) bytes.now) result }
        ensures never_memory { NeverMemory result };
}

/// The items that are still to be read.
#[derive(Debug, Drop)]
pub(super) struct Items<'a> {
    left: usize,
    bytes: &'a [u8],
}

impl<'a> Model for Items<'a> {
    ghost Value = { ToRead };

    ghost view = { λ r. record { left = r.left; bytes = r.bytes.now } };
}

impl<'a> Items<'a> {
    /// Creates the reader of `left` items at the front of the bytes.
    pub(super) fn new(left: usize, bytes: &'a [u8]) -> Items<'a>
        ensures { result ≡ record { left = left; bytes = bytes.now } }
    {
        Items { left, bytes }
    }

    /// Returns how many items are left.
    pub(super) fn len(&self) -> usize
        ensures { result ≡ self.now.left }
    {
        self.left
    }

    /// Returns the bytes of the items that are left.
    pub(super) fn bytes(&self) -> &'a [u8]
        ensures { result.now ≡ self.now.bytes }
    {
        self.bytes
    }

    /// Returns the next item, or the fault of the first check that fails. Trailing bytes after the
    /// last item are refused with `Size`. After a fault, and after the last item, it returns `None`
    /// forever.
    #[inline(always)]
    pub(super) fn next<T: Item<'a>>(&mut self) -> Option<Result<T, Fault>>
        ensures { TakesNext T.spells T.checks self.old result self.new }
    {
        if self.left == 0 {
            if self.bytes.is_empty() {
                return None;
            }
            self.bytes = &[];
            return Some(Err(Fault::Size));
        }
        match T::split(self.bytes) {
            Ok((item, bytes)) => {
                self.left -= 1;
                self.bytes = bytes;
                Some(Ok(item))
            }
            Err(fault) => {
                self.left = 0;
                self.bytes = &[];
                Some(Err(fault))
            }
        }
    }
}
