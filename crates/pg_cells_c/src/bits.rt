//! Bit strings. Their bytes are not copied: they are a part of the cell.
#![tactic(auto, using(crate::proofs::ReadingSteps::reads_into))]

ghost use Rattle.pg_base.specs.Bits.{first_fault_bits};
ghost use Rattle.pg_base.specs.Formats.{Decodes};
ghost use Rattle.pg_cells_c.specs.Readings.{ReadsInto};
ghost use Rattle.pg_cells_c.specs.Spans.{FormBitsSpan};
ghost use Rattle.pg_cells_c.specs.Writings.{WritesCell, wire_first_bits};
ghost use Rattle.pg_types.specs.Faults.{Answers, NeverMemory};

use crate::buffers::{NO_CELL, write, write_parts};
use crate::spans::{Span, last_bytes};
use crate::store::store;
use pg_base::protocol::{MAX_LEN, varbit_from_sql, without_pad};
use pg_types::fault::Fault;

/// The bits of a cell: their number, and the bytes that have them. The first bit is the most
/// significant one of the first byte.
#[derive(Clone, Copy)]
#[repr(C)]
pub struct Bits {
    pub bit_len: usize,
    pub bytes: Span,
}

/// Returns the number of the bits of a cell, and where their bytes are.
fn bits_span(cell: &[u8]) -> Result<Bits, Fault>
    ensures outcome { Answers (Decodes FormBitsSpan first_fault_bits cell.now) result }
    ensures never_memory { NeverMemory result }
{
    let bits = varbit_from_sql(cell)?;
    Ok(Bits {
        bit_len: bits.len(),
        bytes: last_bytes(cell, bits.bytes().len()),
    })
}

/// Reads BIT and VARBIT (`bit_recv`, `varbit_recv`).
#[unsafe(no_mangle)]
pub extern "C" fn pgc_varbit_read(cell: &[u8], bits: &mut Bits) -> u32
    ensures { ReadsInto (Decodes FormBitsSpan first_fault_bits cell.now) bits.old bits.new result }
{
    store(bits_span(cell), bits)
}

/// Writes BIT and VARBIT (`bit_send`, `varbit_send`): the first `bit_len` bits of the bytes. There
/// is no cell if there are not exactly as many bytes as the bits take.
#[unsafe(no_mangle)]
pub extern "C" fn pgc_varbit_write(bit_len: usize, bytes: &[u8], out: &mut [u8]) -> usize
    ensures { WritesCell (wire_first_bits bit_len bytes.now) out.old out.new result }
{
    if bytes.len() != bit_len.div_ceil(8) {
        return NO_CELL;
    }
    if bit_len > MAX_LEN {
        return NO_CELL;
    }
    let count = (bit_len as i32).to_be_bytes();
    match bytes.split_last() {
        Some((last, whole)) => write_parts(&count, whole, &[without_pad(*last, bit_len)], out),
        None => write(&count, out),
    }
}
