//! Reading the entries of an hstore one after another.
ghost use Rattle.std.specs.Prelude.{drop};
ghost use Rattle.pg_base.specs.Counts.{TakesNext, count_checks};
ghost use Rattle.pg_base.specs.Formats.{Decodes, first_fault_of};
ghost use Rattle.pg_base.specs.Hstore.{SpellsCount, entry_checks};
ghost use Rattle.pg_cells_c.specs.Readings.{ReadsInto};
ghost use Rattle.pg_cells_c.specs.Walks.{SpellsEntryAt, StepsInto, to_read};

use crate::frames::{bytes_from, split_text};
use crate::items::{Element, Item, Walk, count_in, element_before, step};
use crate::spans::Span;
use crate::store::store;
use pg_types::fault::Fault;

/// An entry: a key, and its value, which may be NULL.
#[derive(Clone, Copy)]
#[repr(C)]
pub struct Entry {
    pub key: Span,
    pub value: Element,
}

impl Item for Entry {
    ghost spells = { SpellsEntryAt };

    ghost checks = { entry_checks };

    #[inline(always)]
    fn at(cell: &[u8], offset: usize) -> Result<(Entry, usize), Fault> {
        let (key, rest) = split_text(bytes_from(cell, offset))?;
        let Some(key) = key else {
            return Err(Fault::KeyLength);
        };
        let (value, after) = split_text(rest)?;
        let key = element_before(Some(key), cell.len() - rest.len()).bytes;
        let next = cell.len() - after.len();
        let value = element_before(value, next);
        Ok((Entry { key, value }, next))
    }
}

/// Reads the number of entries of an hstore (`hstore_recv`).
#[unsafe(no_mangle)]
#[tactic(auto, using(crate::proofs::ReadingSteps::reads_into))]
pub extern "C" fn pgc_hstore_begin(cell: &[u8], walk: &mut Walk) -> u32
    ensures { ReadsInto (Decodes (λ b walk. SpellsCount b (to_read b walk))
        (λ b. first_fault_of (count_checks b)) cell.now) walk.old walk.new result }
{
    store(count_in(cell), walk)
}

/// Reads the next entry of an hstore.
#[unsafe(no_mangle)]
pub extern "C" fn pgc_hstore_next(cell: &[u8], walk: &mut Walk, entry: &mut Entry) -> u32
    ensures { StepsInto (λ answer. TakesNext (SpellsEntryAt cell.now) entry_checks (to_read cell.now walk.old) answer
        (to_read cell.now walk.new)) entry.old entry.new result }
{
    step(cell, walk, entry)
}
