//! Integers and booleans. Integers are big-endian, and signed ones are in two's complement.
ghost use Rattle.std.specs.Prelude.{Some, ◌∷◌, [], if◌then◌else◌};
ghost use Rattle.std.specs.Int.{w8, w16, w32, w64, to_be_bytes};
ghost use Rattle.pg_base.specs.Cells.{be};
ghost use Rattle.pg_types.specs.Faults.{Answers, NeverMemory};
ghost use Rattle.pg_base.specs.Formats.{Decodes};
ghost use Rattle.pg_base.specs.Numbers.{FormBool, FormSigned, FormUnsigned, first_fault_number};
ghost use Rattle.pg_base.specs.Appending.{Appends};

use crate::fault::Fault;
use bytes::{BufMut, BytesMut};
use std::alloc::Global;

/// Reads BOOL: 1 byte, 0 for false and any other for true (`boolrecv`). Any other length is refused
/// with `Size`.
pub fn bool_from_sql(raw: &[u8]) -> Result<bool, Fault>
    ensures outcome { Answers (Decodes FormBool (first_fault_number 1) raw.now) result }
    ensures never_memory { NeverMemory result }
{
    match raw {
        [byte] => Ok(*byte != 0),
        _ => Err(Fault::Size),
    }
}

/// Appends BOOL: 1 byte, 0 for false and 1 for true (`boolsend`).
#[inline(always)]
pub fn bool_to_sql(_alloc: Global, v: bool, out: &mut BytesMut) -> Result<(), Fault>
    ensures { Appends (Some ((if v then 1 else 0) ∷ [])) out.old out.new result }
{
    out.put_u8(v.into())?;
    Ok(())
}

/// Reads CHAR, the type `"char"`: 1 byte, in two's complement (`charrecv`). Any other length is
/// refused with `Size`.
pub fn char_from_sql(raw: &[u8]) -> Result<i8, Fault>
    ensures outcome { Answers (Decodes (FormSigned w8) (first_fault_number 1) raw.now) result }
    ensures never_memory { NeverMemory result }
{
    match raw {
        [a] => Ok(i8::from_be_bytes([*a])),
        _ => Err(Fault::Size),
    }
}

/// Appends CHAR, the type `"char"`: 1 byte, in two's complement (`charsend`).
#[inline(always)]
pub fn char_to_sql(_alloc: Global, v: i8, out: &mut BytesMut) -> Result<(), Fault>
    ensures { Appends (Some (be w8 v)) out.old out.new result }
{
    out.put_i8(v)?;
    Ok(())
}

/// Reads INT2: 2 bytes, big-endian, in two's complement (`int2recv`). Any other length is refused
/// with `Size`.
pub fn int2_from_sql(raw: &[u8]) -> Result<i16, Fault>
    ensures outcome { Answers (Decodes (FormSigned w16) (first_fault_number 2) raw.now) result }
    ensures never_memory { NeverMemory result }
{
    match raw {
        [a, b] => Ok(i16::from_be_bytes([*a, *b])),
        _ => Err(Fault::Size),
    }
}

/// Appends INT2: 2 bytes, big-endian, in two's complement (`int2send`).
#[inline(always)]
pub fn int2_to_sql(_alloc: Global, v: i16, out: &mut BytesMut) -> Result<(), Fault>
    ensures { Appends (Some (be w16 v)) out.old out.new result }
{
    out.put_i16(v)?;
    Ok(())
}

/// Reads INT4: 4 bytes, big-endian, in two's complement (`int4recv`). Any other length is refused
/// with `Size`.
pub fn int4_from_sql(raw: &[u8]) -> Result<i32, Fault>
    ensures outcome { Answers (Decodes (FormSigned w32) (first_fault_number 4) raw.now) result }
    ensures never_memory { NeverMemory result }
{
    match raw {
        [a, b, c, d] => Ok(i32::from_be_bytes([*a, *b, *c, *d])),
        _ => Err(Fault::Size),
    }
}

/// Appends INT4: 4 bytes, big-endian, in two's complement (`int4send`).
#[inline(always)]
pub fn int4_to_sql(_alloc: Global, v: i32, out: &mut BytesMut) -> Result<(), Fault>
    ensures { Appends (Some (be w32 v)) out.old out.new result }
{
    out.put_i32(v)?;
    Ok(())
}

/// Reads INT8: 8 bytes, big-endian, in two's complement (`int8recv`). Any other length is refused
/// with `Size`.
pub fn int8_from_sql(raw: &[u8]) -> Result<i64, Fault>
    ensures outcome { Answers (Decodes (FormSigned w64) (first_fault_number 8) raw.now) result }
    ensures never_memory { NeverMemory result }
{
    match raw {
        [a, b, c, d, e, f, g, h] => Ok(i64::from_be_bytes([*a, *b, *c, *d, *e, *f, *g, *h])),
        _ => Err(Fault::Size),
    }
}

/// Appends INT8: 8 bytes, big-endian, in two's complement (`int8send`).
#[inline(always)]
pub fn int8_to_sql(_alloc: Global, v: i64, out: &mut BytesMut) -> Result<(), Fault>
    ensures { Appends (Some (be w64 v)) out.old out.new result }
{
    out.put_i64(v)?;
    Ok(())
}

/// Reads OID: 4 bytes, unsigned, big-endian (`oidrecv`). Any other length is refused with `Size`.
pub fn oid_from_sql(raw: &[u8]) -> Result<u32, Fault>
    ensures outcome { Answers (Decodes (FormUnsigned w32) (first_fault_number 4) raw.now) result }
    ensures never_memory { NeverMemory result }
{
    match raw {
        [a, b, c, d] => Ok(u32::from_be_bytes([*a, *b, *c, *d])),
        _ => Err(Fault::Size),
    }
}

/// Appends OID: 4 bytes, unsigned, big-endian (`oidsend`).
#[inline(always)]
pub fn oid_to_sql(_alloc: Global, v: u32, out: &mut BytesMut) -> Result<(), Fault>
    ensures { Appends (Some (to_be_bytes w32 v)) out.old out.new result }
{
    out.put_u32(v)?;
    Ok(())
}
