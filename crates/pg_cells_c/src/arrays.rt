//! Reading the elements of an array one after another.
ghost use Rattle.std.specs.Prelude.{◌≤◌, drop, length, take};
ghost use Rattle.std.specs.Int.{w32};
ghost use Rattle.pg_base.specs.Arrays.{head_checks};
ghost use Rattle.pg_base.specs.Cells.{IsBeUnsigned};
ghost use Rattle.pg_base.specs.Counts.{TakesNext, cell_checks};
ghost use Rattle.pg_base.specs.Formats.{Decodes, first_fault_of};
ghost use Rattle.pg_cells_c.specs.Arrays.{SpellsArray};
ghost use Rattle.pg_cells_c.specs.Readings.{ReadsInto};
ghost use Rattle.pg_cells_c.specs.Walks.{SpellsElement, StepsInto, to_read};
ghost use Rattle.pg_types.specs.Faults.{Answers, NeverMemory};

use crate::items::{Element, Walk, step};
use crate::store::store;
use pg_base::protocol::array_from_sql;
use pg_types::fault::Fault;
use std::alloc::Global;

/// An array: the position before its first element, and the OID of its elements' type.
#[derive(Clone, Copy)]
#[repr(C)]
pub struct Array {
    pub walk: Walk,
    pub element_oid: u32,
}

/// Returns the OID of the elements' type. In the header it follows the number of dimensions and the
/// flags.
#[inline(always)]
fn element_oid(cell: &[u8]) -> u32
    requires { 12 ≤ length cell.now }
    ensures { IsBeUnsigned w32 (take 4 (drop 8 cell.now)) result }
{
    u32::from_be_bytes([cell[8], cell[9], cell[10], cell[11]])
}

/// Reads the header of an array.
#[inline(always)]
fn array_in(alloc: Global, cell: &[u8]) -> Result<Array, Fault>
    ensures outcome { Answers (Decodes SpellsArray (λ b. first_fault_of (head_checks b)) cell.now) result }
    ensures never_memory { NeverMemory result }
{
    let cells = array_from_sql(alloc, cell)?;
    // The header of an array without a dimension is shorter by the fields of that dimension.
    let offset = if cell.starts_with(&[0; 4]) { 12 } else { 20 };
    Ok(Array {
        walk: Walk {
            left: cells.len(),
            offset,
        },
        element_oid: element_oid(cell),
    })
}

/// Reads the header of an array (`array_recv`). `alloc` has no size, so that C passes no argument
/// for it.
#[unsafe(no_mangle)]
#[tactic(auto, using(crate::proofs::ReadingSteps::reads_into))]
pub extern "C" fn pgc_array_begin(alloc: Global, cell: &[u8], array: &mut Array) -> u32
    ensures { ReadsInto (Decodes SpellsArray (λ b. first_fault_of (head_checks b)) cell.now)
        array.old array.new result }
{
    store(array_in(alloc, cell), array)
}

/// Reads the next element of an array.
#[unsafe(no_mangle)]
pub extern "C" fn pgc_array_next(cell: &[u8], walk: &mut Walk, element: &mut Element) -> u32
    ensures { StepsInto (λ answer. TakesNext (SpellsElement cell.now) cell_checks (to_read cell.now walk.old) answer
        (to_read cell.now walk.new)) element.old element.new result }
{
    step(cell, walk, element)
}
