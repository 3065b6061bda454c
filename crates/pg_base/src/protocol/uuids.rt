//! UUIDs.
ghost use Rattle.std.specs.Prelude.{Some};
ghost use Rattle.pg_base.specs.Appending.{Appends};
ghost use Rattle.pg_types.specs.Faults.{Answers, NeverMemory};
ghost use Rattle.pg_base.specs.Formats.{Decodes};
ghost use Rattle.pg_base.specs.FixedBytes.{FormFixedBytes};
ghost use Rattle.pg_base.specs.Numbers.{first_fault_number};

use crate::fault::Fault;
use bytes::BytesMut;
use std::alloc::Global;

/// Reads UUID: 16 bytes (`uuid_recv`). Any other length is refused with `Size`.
pub fn uuid_from_sql(raw: &[u8]) -> Result<[u8; 16], Fault>
    ensures outcome { Answers (Decodes (FormFixedBytes 16) (first_fault_number 16) raw.now) result }
    ensures never_memory { NeverMemory result }
{
    match <[u8; 16]>::try_from(raw) {
        Ok(bytes) => Ok(bytes),
        Err(_) => Err(Fault::Size),
    }
}

/// Appends UUID: 16 bytes (`uuid_send`).
#[inline(always)]
pub fn uuid_to_sql(_alloc: Global, v: [u8; 16], out: &mut BytesMut) -> Result<(), Fault>
    ensures { Appends (Some v) out.old out.new result }
{
    out.extend_from_slice(&v)?;
    Ok(())
}
