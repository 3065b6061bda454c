//! Reading the items of a cell one after another.
ghost use Rattle.std.specs.Prelude.{◌≡◌, ◌≤◌, IfSome, List, drop, length, ℕ};
ghost use Rattle.pg_base.specs.Counts.{TakesNext, cell_checks, count_checks};
ghost use Rattle.pg_base.specs.Formats.{Checks, Decodes, first_fault_of};
ghost use Rattle.pg_base.specs.Hstore.{SpellsCount};
ghost use Rattle.pg_cells_c.specs.Walks.{SpellsElement, StartsItem, StepsInto, Tells, element_of, to_read};
ghost use Rattle.pg_types.specs.Faults.{Answers, NeverMemory};

use crate::frames::bytes_from;
use crate::spans::Span;
use crate::store::store;
use pg_base::protocol::{split_cell, split_number};
use pg_types::fault::Fault;

/// The result if there are no more items.
const NO_ITEM: u32 = u32::MAX;

/// The position among the items: how many are left, and the offset of the next one.
#[derive(Clone, Copy)]
#[repr(C)]
pub struct Walk {
    pub left: usize,
    pub offset: usize,
}

/// An element: a part of the cell, or NULL. `is_null` is 1 if it is NULL, and otherwise 0.
#[derive(Clone, Copy)]
#[repr(C)]
pub struct Element {
    pub is_null: u32,
    pub bytes: Span,
}

/// An item of a cell that has many.
pub(crate) trait Item: Copy {
    /// The bytes are those of the item in the cell.
    ghost spells: { List ℕ → List ℕ → Self → Type 0 };

    /// The checks of the first item.
    ghost checks: { List ℕ → Checks };

    /// Reads the item at an offset in the cell, and returns it with the offset of the next one.
    fn at(cell: &[u8], offset: usize) -> Result<(Self, usize), Fault>
        ensures outcome { Answers (Decodes (StartsItem (spells cell.now) cell.now)
            (λ s. first_fault_of (checks s)) (drop offset cell.now)) result }
        ensures never_memory { NeverMemory result };
}

/// Returns the element whose bytes end right before an offset, or NULL.
#[inline(always)]
pub(crate) fn element_before(bytes: Option<&[u8]>, next: usize) -> Element
    requires { IfSome bytes (λ it. length it.now ≤ next) }
    ensures { result ≡ element_of next bytes.entry }
{
    match bytes {
        Some(bytes) => {
            let len = bytes.len();
            let offset = next - len;
            Element {
                is_null: 0,
                bytes: Span { offset, len },
            }
        }
        None => Element {
            is_null: 1,
            bytes: Span {
                offset: next,
                len: 0,
            },
        },
    }
}

impl Item for Element {
    ghost spells = { SpellsElement };

    ghost checks = { cell_checks };

    #[inline(always)]
    fn at(cell: &[u8], offset: usize) -> Result<(Element, usize), Fault> {
        let (element, after) = split_cell(bytes_from(cell, offset))?;
        let next = cell.len() - after.len();
        Ok((element_before(element, next), next))
    }
}

/// Reads the next item. It is refused with the fault of the first check that it fails. Bytes that
/// follow the last item are refused with `Size`. After a fault, and after the last item, every
/// further call returns `None`.
#[inline(always)]
fn next_item<T: Item>(cell: &[u8], walk: &mut Walk) -> Option<Result<T, Fault>>
    ensures { TakesNext (T.spells cell.now) T.checks (to_read cell.now walk.old) result (to_read cell.now walk.new) }
{
    let end = Walk {
        left: 0,
        offset: cell.len(),
    };
    if walk.left == 0 {
        let is_end = bytes_from(cell, walk.offset).is_empty();
        *walk = end;
        return if is_end { None } else { Some(Err(Fault::Size)) };
    }
    match T::at(cell, walk.offset) {
        Ok((item, offset)) => {
            let left = walk.left - 1;
            *walk = Walk { left, offset };
            Some(Ok(item))
        }
        Err(fault) => {
            *walk = end;
            Some(Err(fault))
        }
    }
}

/// Returns the position of the first item after a number of items.
#[inline(always)]
pub(crate) fn count_in(cell: &[u8]) -> Result<Walk, Fault>
    ensures outcome { Answers (Decodes (λ b walk. SpellsCount b (to_read b walk))
        (λ b. first_fault_of (count_checks b)) cell.now) result }
    ensures never_memory { NeverMemory result }
{
    let (count, _) = split_number(cell)?;
    if count < 0 {
        return Err(Fault::Count);
    }
    Ok(Walk {
        left: count as usize,
        offset: 4,
    })
}

/// Stores the item that was read and returns 0, or returns the number of the fault, or [`NO_ITEM`].
#[inline(always)]
fn tell<T: Copy>(read: Option<Result<T, Fault>>, item: &mut T) -> u32
    ensures { Tells read item.old item.new result }
{
    match read {
        Some(read) => store(read, item),
        None => NO_ITEM,
    }
}

/// Reads the next item into a variable and returns 0, or returns the number of the fault, or
/// [`NO_ITEM`].
#[inline(always)]
pub(crate) fn step<T: Item>(cell: &[u8], walk: &mut Walk, item: &mut T) -> u32
    ensures { StepsInto (λ answer. TakesNext (T.spells cell.now) T.checks (to_read cell.now walk.old) answer
        (to_read cell.now walk.new)) item.old item.new result }
{
    tell(next_item(cell, walk), item)
}
