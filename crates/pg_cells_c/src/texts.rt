//! Texts and bytes. They are not copied: they are a part of the cell.
#![tactic(auto, using(crate::proofs::ReadingSteps::reads_into))]

ghost use Rattle.std.specs.Prelude.{◌≡◌, true, false};
ghost use Rattle.pg_base.specs.Formats.{Decodes};
ghost use Rattle.pg_base.specs.Texts.{first_fault_text, wire_text};
ghost use Rattle.pg_cells_c.specs.Readings.{ReadsInto};
ghost use Rattle.pg_cells_c.specs.Spans.{FormTextSpan, FormWhole};
ghost use Rattle.pg_cells_c.specs.Writings.{WritesCell, WritesInto};
ghost use Rattle.pg_types.specs.Faults.{Answers, NeverMemory};

use crate::buffers::{NO_CELL, write, write_parts};
use crate::spans::{Span, last_bytes};
use crate::store::store;
use pg_base::protocol::bytea_from_sql;
use pg_types::fault::Fault;

/// The first byte of a cell that has a version.
const VERSION: u8 = 1;

/// Returns where the text of a cell is.
///
/// This is `text_from_sql` of `pg_base`, which is not called here because it is not inlined: with a
/// call of it, the library would contain the code that drops a fault, and so need an allocator.
#[inline(always)]
#[tactic(auto, using(pg_base::proofs::TextLemmas::text_refused))]
fn text_span(cell: &[u8]) -> Result<Span, Fault>
    ensures outcome { Answers (Decodes (FormTextSpan false) (first_fault_text false) cell.now) result }
    ensures never_memory { NeverMemory result }
{
    match str::from_utf8(cell) {
        Ok(text) => Ok(last_bytes(cell, text.len())),
        Err(_) => Err(Fault::Utf8),
    }
}

/// Returns where the text of a cell that begins with a version is.
fn versioned_span(cell: &[u8]) -> Result<Span, Fault>
    ensures outcome { Answers (Decodes (FormTextSpan true) (first_fault_text true) cell.now) result }
    ensures never_memory { NeverMemory result }
{
    match cell {
        [VERSION, text @ ..] => {
            let span = text_span(text)?;
            Ok(last_bytes(cell, span.len))
        }
        _ => Err(Fault::TextVersion),
    }
}

/// Reads a text: VARCHAR, TEXT, BPCHAR, NAME, UNKNOWN and citext (`textrecv` and its like).
#[unsafe(no_mangle)]
pub extern "C" fn pgc_text_read(cell: &[u8], text: &mut Span) -> u32
    ensures { ReadsInto (Decodes (FormTextSpan false) (first_fault_text false) cell.now) text.old text.new result }
{
    store(text_span(cell), text)
}

/// Writes a text (`textsend` and its like). Bytes that are not UTF-8 have no cell.
#[unsafe(no_mangle)]
pub extern "C" fn pgc_text_write(text: &[u8], out: &mut [u8]) -> usize
    ensures { WritesCell (wire_text false text.now) out.old out.new result }
{
    match str::from_utf8(text) {
        Ok(_) => write(text, out),
        Err(_) => NO_CELL,
    }
}

/// Reads ltree, lquery and ltxtquery (`ltree_recv`, `lquery_recv`, `ltxtq_recv`).
#[unsafe(no_mangle)]
pub extern "C" fn pgc_ltree_read(cell: &[u8], text: &mut Span) -> u32
    ensures { ReadsInto (Decodes (FormTextSpan true) (first_fault_text true) cell.now) text.old text.new result }
{
    store(versioned_span(cell), text)
}

/// Writes ltree, lquery and ltxtquery (`ltree_send`, `lquery_send`, `ltxtq_send`). Bytes that are
/// not UTF-8 have no cell.
#[unsafe(no_mangle)]
pub extern "C" fn pgc_ltree_write(text: &[u8], out: &mut [u8]) -> usize
    ensures { WritesCell (wire_text true text.now) out.old out.new result }
{
    match str::from_utf8(text) {
        Ok(_) => write_parts(&[VERSION], text, &[], out),
        Err(_) => NO_CELL,
    }
}

/// Reads BYTEA (`bytearecv`). No cell is refused.
#[unsafe(no_mangle)]
pub extern "C" fn pgc_bytea_read(cell: &[u8], bytes: &mut Span) -> u32
    ensures whole { FormWhole cell.now bytes.new }
    ensures never_refused { result ≡ 0 }
{
    *bytes = last_bytes(cell, bytea_from_sql(cell).len());
    0
}

/// Writes BYTEA (`byteasend`).
#[unsafe(no_mangle)]
pub extern "C" fn pgc_bytea_write(bytes: &[u8], out: &mut [u8]) -> usize
    ensures { WritesInto bytes.now out.old out.new result }
{
    write(bytes, out)
}
