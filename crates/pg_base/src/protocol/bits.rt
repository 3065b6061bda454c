//! Bit strings. The first bit is the most significant one of the first byte.
ghost use Rattle.std.specs.Prelude.{◌≡◌, ◌≤◌, ◌+◌, ◌++◌, IfOk, length};
ghost use Rattle.pg_base.specs.Bits.{FormBits, bits_cell, bytes_for, first_bits, first_fault_bits, packed};
ghost use Rattle.pg_base.specs.Bits.{pad_of, without_low};
ghost use Rattle.pg_base.specs.Counts.{after_number};
ghost use Rattle.pg_types.specs.Faults.{Answers, NeverMemory};
ghost use Rattle.pg_base.specs.Formats.{Decodes};
ghost use Rattle.pg_base.specs.Appending.{Appends};

use super::counts::split_count;
use super::frames::MAX_LEN;
use crate::fault::Fault;
use bytes::BytesMut;
use std::alloc::Global;

/// The bits of a cell, borrowed from it.
#[derive(Debug, Clone, Copy)]
pub struct Varbit<'a> {
    len: usize,
    bytes: &'a [u8],
    ghost whole: { length bytes.now ≡ bytes_for len },
}

impl<'a> Varbit<'a> {
    /// Returns the number of bits.
    pub fn len(&self) -> usize
        ensures { result ≡ self.now.len }
    {
        self.len
    }

    /// Returns the bytes of the bits, as many as the bits take. The most significant bit of each
    /// byte comes first. The padding bits of the last byte are as in the cell.
    pub fn bytes(&self) -> &'a [u8]
        ensures bytes { result.now ≡ self.now.bytes.now }
        ensures whole { length result.now ≡ bytes_for self.now.len }
    {
        self.bytes
    }
}

/// Reads BIT and VARBIT: the number of bits in 4 bytes, big-endian, and as many bytes as they take,
/// the first bit being the most significant one of the first byte (`bit_recv`, `varbit_recv`). A
/// truncated number is refused with `Size`, a negative one with `Count`, and any other number of
/// bytes with `Size`. The padding bits of the last byte are ignored.
pub fn varbit_from_sql(raw: &[u8]) -> Result<Varbit<'_>, Fault>
    ensures outcome { Answers (Decodes (FormBits (λ v. first_bits v.len v.bytes.now)) first_fault_bits raw.now) result }
    ensures in_place { IfOk result (λ v. v.bytes.now ≡ after_number raw.now) }
    ensures never_memory { NeverMemory result }
{
    let (len, bytes) = split_count(raw)?;
    if bytes.len() != len.div_ceil(8) {
        return Err(Fault::Size);
    }
    Ok(Varbit { len, bytes })
}

/// Appends BIT and VARBIT: the number of bits in 4 bytes, big-endian, and the bytes, of which there
/// must be as many as the bits take (`bit_send`, `varbit_send`). The padding bits of the last byte
/// are written as 0. More than 2,147,483,647 bits are refused with `Transmit`.
#[inline(always)]
pub fn varbit_to_sql(
    _alloc: Global,
    len: usize,
    bytes: &[u8],
    out: &mut BytesMut,
) -> Result<(), Fault>
    requires { length bytes.now ≡ bytes_for len }
    ensures { Appends (bits_cell (first_bits len bytes.now)) out.old out.new result }
{
    if len > MAX_LEN {
        return Err(Fault::Transmit);
    }
    out.reserve(4 + bytes.len())?;
    out.extend_reserved(&(len as i32).to_be_bytes());
    extend_by_bits(len, bytes, out);
    Ok(())
}

/// Appends the bytes of the bits, with 0 for the padding bits of the last one. There must be room
/// for them.
#[inline(always)]
fn extend_by_bits(len: usize, bytes: &[u8], out: &mut BytesMut)
    requires whole { length bytes.now ≡ bytes_for len }
    requires room { length bytes.now ≤ out.old.spare }
    ensures items { out.new.items ≡ out.old.items ++ packed (first_bits len bytes.now) }
    ensures spare { out.new.spare + length bytes.now ≡ out.old.spare }
{
    let Some((last, whole)) = bytes.split_last() else {
        return;
    };
    out.extend_reserved(whole);
    out.extend_reserved(&[without_pad(*last, len)]);
}

/// Returns the last byte of `len` bits, with 0 for its padding bits.
pub fn without_pad(byte: u8, len: usize) -> u8
    ensures { result ≡ without_low (pad_of len) byte }
{
    let pad = (8 - len % 8) % 8;
    byte >> pad << pad
}
