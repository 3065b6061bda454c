//! Log sequence numbers.
ghost use Rattle.std.specs.Prelude.{Some};
ghost use Rattle.std.specs.Int.{w64, to_be_bytes};
ghost use Rattle.pg_base.specs.Appending.{Appends};
ghost use Rattle.pg_types.specs.Faults.{Answers, NeverMemory};
ghost use Rattle.pg_base.specs.Formats.{Decodes};
ghost use Rattle.pg_base.specs.Numbers.{FormUnsigned, first_fault_number};

use crate::fault::Fault;
use bytes::{BufMut, BytesMut};
use std::alloc::Global;

/// Reads PG_LSN: 8 bytes, unsigned, big-endian (`pg_lsn_recv`). Any other length is refused with
/// `Size`.
pub fn lsn_from_sql(raw: &[u8]) -> Result<u64, Fault>
    ensures outcome { Answers (Decodes (FormUnsigned w64) (first_fault_number 8) raw.now) result }
    ensures never_memory { NeverMemory result }
{
    match raw {
        [a, b, c, d, e, f, g, h] => Ok(u64::from_be_bytes([*a, *b, *c, *d, *e, *f, *g, *h])),
        _ => Err(Fault::Size),
    }
}

/// Appends PG_LSN: 8 bytes, unsigned, big-endian (`pg_lsn_send`).
#[inline(always)]
pub fn lsn_to_sql(_alloc: Global, v: u64, out: &mut BytesMut) -> Result<(), Fault>
    ensures { Appends (Some (to_be_bytes w64 v)) out.old out.new result }
{
    out.put_u64(v)?;
    Ok(())
}
