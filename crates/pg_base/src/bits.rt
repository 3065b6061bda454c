//! Bit strings.
ghost use Rattle.std.specs.Prelude.{◌≡◌, ◌==◌, ◌*◌, ◌<◌, ◌≤◌, ℕ, List, [], ◌∷◌, Bool, length, IfOk, IfErr, Some};
ghost use Rattle.std.specs.Prelude.{slice_get, if◌then◌else◌};
ghost use Rattle.std.specs.Bool.{beq};
ghost use Rattle.std.specs.Cmp.Lexicographic.{pointwise};
ghost use Rattle.pg_types.specs.declared.fault.Fault.TheVariants.{Memory};
ghost use Rattle.std.specs.Cmp.{bool_eq_equiv, partial_equiv_from_equiv};
ghost use Rattle.std.proofs.lemmas.Cmp.{lists_equiv};
ghost use Rattle.pg_base.specs.Bits.{Pops, Pushes, TakesBytes, bit_digit, bit_of, bits_text, bytes_for};
ghost use Rattle.pg_base.specs.Bits.{first_bits, packed};

pub mod laws;

use crate::fault::Fault;
use crate::protocol::{Varbit, without_pad};
use std::alloc::{AllocError, Global};
use std::fmt;
use std::marker::Model;

/// A bit string, packed eight bits to a byte.
#[derive(Debug, Drop)]
pub struct BitVec {
    /// The first bit is the most significant one of the first byte; the padding bits of the last
    /// byte are 0.
    bytes: Vec<u8>,
    len: usize,
}

/// In contracts, a bit string is the list of its bits.
impl Model for BitVec {
    ghost use Rattle.std.specs.Prelude.{◌≡◌, Bool, List};
    ghost use Rattle.pg_base.specs.Bits.{first_bits, packed};

    ghost Value = { List Bool };

    ghost view = { λ v. first_bits v.len v.bytes.items };

    ghost invariant = { λ v. v.bytes.items ≡ packed (first_bits v.len v.bytes.items) };
}

impl BitVec {
    /// Creates an empty bit string.
    pub fn new(alloc: Global) -> BitVec
        ensures { result ≡ [] }
    {
        BitVec {
            bytes: Vec::new(alloc),
            len: 0,
        }
    }

    /// Copies the bits of the bytes, the most significant bit of each byte first. Fails with
    /// [`Fault::Transmit`] if there are more than `usize::MAX` bits, and with [`Fault::Memory`] if
    /// memory runs out.
    pub fn from_bytes(alloc: Global, bytes: &[u8]) -> Result<BitVec, Fault>
        ensures { TakesBytes bytes.now result }
    {
        let Some(len) = bytes.len().checked_mul(8) else {
            return Err(Fault::Transmit);
        };
        let bytes = Vec::from_slice(alloc, bytes)?;
        Ok(BitVec { bytes, len })
    }

    /// Copies the bits of a cell. The only error is [`Fault::Memory`].
    pub fn from_varbit(alloc: Global, bits: Varbit<'_>) -> Result<BitVec, Fault>
        ensures ok { IfOk result (λ v. v ≡ first_bits bits.entry.len bits.entry.bytes.now) }
        ensures refused { IfErr result (λ e. e ≡ Memory) }
    {
        let len = bits.len();
        let padded = bits.bytes();
        let mut bytes = Vec::from_slice(alloc, padded)?;
        if let Some(last) = padded.len().checked_sub(1) {
            bytes[last] = without_pad(padded[last], len);
        }
        Ok(BitVec { bytes, len })
    }

    /// Returns the number of bits.
    #[tactic(auto, using(crate::proofs::BitLemmas::first_bits_len))]
    pub fn len(&self) -> usize
        ensures { result ≡ length self.now }
    {
        self.len
    }

    /// Whether there are no bits.
    pub fn is_empty(&self) -> bool
        ensures { result ≡ (length self.now == 0) }
    {
        self.len() == 0
    }

    /// Returns the bit at index `i`, counted from 0, or `None` if there are not that many bits.
    pub fn get(&self, i: usize) -> Option<bool>
        ensures { result ≡ slice_get self.now i }
    {
        if i < self.len {
            Some(bit_of(self.bytes[i / 8], i % 8))
        } else {
            None
        }
    }

    /// Appends a bit. Fails with [`Fault::Transmit`] if there are `usize::MAX` bits already, and
    /// with [`Fault::Memory`] if memory runs out. An error leaves the bits unchanged.
    pub fn push(&mut self, bit: bool) -> Result<(), Fault>
        ensures { Pushes self.old bit self.new result }
    {
        if self.len == usize::MAX {
            return Err(Fault::Transmit);
        }
        let (last, place) = (self.len / 8, self.len % 8);
        if place == 0 {
            self.bytes.push(with_bit(0, place, bit))?;
        } else {
            self.bytes[last] = with_bit(self.bytes[last], place, bit);
        }
        self.len += 1;
        Ok(())
    }

    /// Removes the last bit and returns it, or returns `None` if there is none.
    pub fn pop(&mut self) -> Option<bool>
        ensures { Pops self.old result self.new }
    {
        if self.len == 0 {
            return None;
        }
        self.len -= 1;
        let (last, place) = (self.len / 8, self.len % 8);
        let byte = self.bytes[last];
        let bit = bit_of(byte, place);
        if place == 0 {
            let _ = self.bytes.pop();
        } else {
            self.bytes[last] = with_bit(byte, place, false);
        }
        Some(bit)
    }

    /// Returns the bits packed eight to a byte, the first bit being the most significant one of the
    /// first byte. The padding bits of the last byte are 0.
    #[tactic(auto, using(crate::proofs::BitLemmas::packed_len, crate::proofs::BitLemmas::first_bits_packed))]
    pub fn as_bytes(&self) -> &[u8]
        ensures bytes { result.now ≡ packed self.now }
        ensures whole { length result.now ≡ bytes_for (length self.now) }
        ensures bits { first_bits (length self.now) result.now ≡ self.now }
    {
        self.bytes.as_slice()
    }

    /// Returns a copy of [`as_bytes`](BitVec::as_bytes). The only error is [`Fault::Memory`].
    pub fn to_bytes(&self, alloc: Global) -> Result<Vec<u8>, Fault>
        ensures ok { IfOk result (λ bytes. bytes.items ≡ packed self.now) }
        ensures refused { IfErr result (λ e. e ≡ Memory) }
    {
        Ok(Vec::from_slice(alloc, self.as_bytes())?)
    }
}

/// A copy has the same bits.
impl Clone for BitVec {
    ghost is_clone = { λ bits copy. copy ≡ bits };

    fn clone(&self) -> Result<BitVec, AllocError> {
        Ok(BitVec {
            bytes: self.bytes.clone()?,
            len: self.len,
        })
    }
}

/// Writes a digit 0 or 1 for each bit (`bit_out`, `varbit_out`).
impl fmt::Display for BitVec {
    ghost output = { λ bits. Some (bits_text bits) };

    fn fmt<W: fmt::Write>(&self, f: &mut fmt::Formatter<W>) -> fmt::Result {
        for place in 0..self.len() {
            let Some(bit) = self.get(place) else {
                unreachable!();
            };
            f.write_str(bit_text(bit))?;
        }
        Ok(())
    }
}

/// Returns the digit of a bit.
fn bit_text(bit: bool) -> &'static str
    ensures { result.now ≡ bit_digit bit ∷ [] }
{
    if bit { "1" } else { "0" }
}

/// Two bit strings are equal if they have the same bits.
impl PartialEq for BitVec {
    ghost eq = { pointwise beq };

    ghost laws = { partial_equiv_from_equiv (lists_equiv bool_eq_equiv) };

    #[tactic(auto, using(crate::proofs::BitLemmas::same_packed))]
    fn eq(&self, other: &BitVec) -> bool {
        self.len == other.len && self.bytes.as_slice() == other.bytes.as_slice()
    }
}

impl Eq for BitVec {
    ghost laws = { lists_equiv bool_eq_equiv };
}

/// Returns a bit of a byte; place 0 is the most significant bit.
#[tactic(auto, using(crate::proofs::BitLemmas::read_bit))]
fn bit_of(byte: u8, place: usize) -> bool
    requires { place < 8 }
    ensures { result ≡ bit_of byte place }
{
    byte >> (7 - place) & 1 == 1
}

/// Returns the byte with the bit at `place` replaced; place 0 is the most significant bit.
fn with_bit(byte: u8, place: usize, bit: bool) -> u8
    requires { place < 8 }
    ensures { (at : ℕ) → at < 8 → bit_of result at ≡ (if at == place then bit else bit_of byte at) }
{
    let mask = 1 << (7 - place);
    if bit { byte | mask } else { byte & !mask }
}
