//! Reading the fields of a record, and the columns of a row, one after another.
ghost use Rattle.std.specs.Prelude.{drop};
ghost use Rattle.pg_base.specs.Counts.{TakesNext, count_checks};
ghost use Rattle.pg_base.specs.Formats.{Decodes, first_fault_of};
ghost use Rattle.pg_base.specs.Hstore.{SpellsCount};
ghost use Rattle.pg_cells_c.specs.Readings.{ReadsInto};
ghost use Rattle.pg_cells_c.specs.Records.{SpellsFieldAt, SpellsRow, field_checks, row_checks};
ghost use Rattle.pg_cells_c.specs.Walks.{StepsInto, to_read};
ghost use Rattle.pg_types.specs.Faults.{Answers, NeverMemory};

use crate::frames::{bytes_from, split_oid};
use crate::items::{Element, Item, Walk, count_in, element_before, step};
use crate::store::store;
use pg_base::protocol::{int2_from_sql, split_cell};
use pg_types::fault::Fault;

/// A field: the OID of its type, and its value, which may be NULL.
#[derive(Clone, Copy)]
#[repr(C)]
pub struct Field {
    pub oid: u32,
    pub value: Element,
}

impl Item for Field {
    ghost spells = { SpellsFieldAt };

    ghost checks = { field_checks };

    #[inline(always)]
    fn at(cell: &[u8], offset: usize) -> Result<(Field, usize), Fault> {
        let (oid, rest) = split_oid(bytes_from(cell, offset))?;
        let (value, after) = split_cell(rest)?;
        let next = cell.len() - after.len();
        let value = element_before(value, next);
        Ok((Field { oid, value }, next))
    }
}

/// Reads the number of fields of a record (`record_recv`).
#[unsafe(no_mangle)]
#[tactic(auto, using(crate::proofs::ReadingSteps::reads_into))]
pub extern "C" fn pgc_record_begin(cell: &[u8], walk: &mut Walk) -> u32
    ensures { ReadsInto (Decodes (λ b walk. SpellsCount b (to_read b walk))
        (λ b. first_fault_of (count_checks b)) cell.now) walk.old walk.new result }
{
    store(count_in(cell), walk)
}

/// Reads the next field of a record.
#[unsafe(no_mangle)]
pub extern "C" fn pgc_record_next(cell: &[u8], walk: &mut Walk, field: &mut Field) -> u32
    ensures { StepsInto (λ answer. TakesNext (SpellsFieldAt cell.now) field_checks (to_read cell.now walk.old) answer
        (to_read cell.now walk.new)) field.old field.new result }
{
    step(cell, walk, field)
}

/// Returns the position of the first column of a row.
#[inline(always)]
fn row_in(body: &[u8]) -> Result<Walk, Fault>
    ensures outcome { Answers (Decodes (λ b walk. SpellsRow b (to_read b walk))
        (λ b. first_fault_of (row_checks b)) body.now) result }
    ensures never_memory { NeverMemory result }
{
    if body.len() < 2 {
        return Err(Fault::Size);
    }
    let (head, _) = body.split_at(2);
    let count = int2_from_sql(head)?;
    if count < 0 {
        return Err(Fault::Count);
    }
    Ok(Walk {
        left: count as usize,
        offset: 2,
    })
}

/// Reads the number of columns of a row (documentation, "Message Formats", DataRow).
#[unsafe(no_mangle)]
#[tactic(auto, using(crate::proofs::ReadingSteps::reads_into))]
pub extern "C" fn pgc_row_begin(body: &[u8], walk: &mut Walk) -> u32
    ensures { ReadsInto (Decodes (λ b walk. SpellsRow b (to_read b walk))
        (λ b. first_fault_of (row_checks b)) body.now) walk.old walk.new result }
{
    store(row_in(body), walk)
}
