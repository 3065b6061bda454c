//! Length prefixes of 4 bytes, the cells that follow them, and frames: a prefix and its cell.
ghost use Rattle.std.specs.Prelude.{◌≡◌, ◌∷◌, [], Some, drop, negsuc};
ghost use Rattle.std.specs.Int.{w32};
ghost use Rattle.pg_base.specs.Appending.{wire_of};
ghost use Rattle.pg_base.specs.Cells.{IsBeUnsigned, be, cell_of, frame};
ghost use Rattle.pg_base.specs.Counts.{StartsWith, has_number};
ghost use Rattle.pg_base.specs.Formats.{Decodes, first_fault_of};
ghost use Rattle.pg_base.specs.Hstore.{SpellsText, value_checks};
ghost use Rattle.pg_cells_c.specs.Writings.{WritesCell, WritesInto};
ghost use Rattle.pg_types.specs.Faults.{Answers, NeverMemory, size};

use crate::buffers::{NO_CELL, write, write_parts};
use pg_base::protocol::{MAX_LEN, oid_from_sql, split_cell};
use pg_types::fault::Fault;

/// Returns the bytes of a cell from an offset on.
#[inline(always)]
pub(crate) fn bytes_from(cell: &[u8], offset: usize) -> &[u8]
    ensures { result.now ≡ drop offset cell.now }
{
    cell.get(offset..).unwrap_or(&[])
}

/// Returns the OID at the front of a field of a record, and the bytes after it.
#[inline(always)]
pub(crate) fn split_oid(field: &[u8]) -> Result<(u32, &[u8]), Fault>
    ensures outcome { Answers (Decodes (StartsWith (IsBeUnsigned w32))
        (λ s. first_fault_of ((has_number s, size) ∷ [])) field.now) result }
    ensures never_memory { NeverMemory result }
{
    if field.len() < 4 {
        return Err(Fault::Size);
    }
    let (oid, rest) = field.split_at(4);
    Ok((oid_from_sql(oid)?, rest))
}

/// Returns the first text, and the bytes after it. Any negative length is NULL.
#[inline(always)]
#[tactic(auto, using(pg_base::proofs::TextLemmas::text_refused))]
pub(crate) fn split_text(bytes: &[u8]) -> Result<(Option<&[u8]>, &[u8]), Fault>
    ensures outcome { Answers (Decodes (StartsWith (λ s text. SpellsText s (cell_of text)))
        (λ s. first_fault_of (value_checks s)) bytes.now) result }
    ensures never_memory { NeverMemory result }
{
    let (cell, bytes) = split_cell(bytes)?;
    let Some(text) = cell else {
        return Ok((None, bytes));
    };
    match str::from_utf8(text) {
        Ok(_) => Ok((Some(text), bytes)),
        Err(_) => Err(Fault::Utf8),
    }
}

/// Writes the frame of a cell: its length and the cell. A cell of more than 2,147,483,647 bytes has
/// no frame.
#[unsafe(no_mangle)]
pub extern "C" fn pgc_frame_write(cell: &[u8], out: &mut [u8]) -> usize
    ensures { WritesCell (wire_of (frame (Some cell.now))) out.old out.new result }
{
    if cell.len() > MAX_LEN {
        return NO_CELL;
    }
    let len = (cell.len() as i32).to_be_bytes();
    write_parts(&len, cell, &[], out)
}

/// Writes the frame of NULL.
#[unsafe(no_mangle)]
pub extern "C" fn pgc_null_write(out: &mut [u8]) -> usize
    ensures { WritesInto (be w32 (negsuc 0)) out.old out.new result }
{
    write(&(-1i32).to_be_bytes(), out)
}
