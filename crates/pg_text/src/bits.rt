//! The texts of bit strings.
ghost use Rattle.std.specs.Prelude.{◌≡◌, MatchOption, Bool, List};
ghost use Rattle.pg_base.specs.Bits.{bit_digit, bits_text};
ghost use Rattle.pg_text.specs.ReadBack.{IsReadBack};
ghost use Rattle.pg_text.specs.Texts.{SaysAny, Shows};

use crate::{FromText, ToText, no_value};
use postgres_types::{BitVec, Fault};
use std::alloc::{AllocError, Global};

/// Writes a digit 0 or 1 for each bit (`bit_out`, `varbit_out`).
impl ToText for BitVec {
    ghost shows = { Shows bits_text };

    fn to_text(&self, _alloc: Global, out: &mut Vec<u8>) -> Result<(), AllocError> {
        for place in 0..self.len() {
            let Some(bit) = self.get(place) else {
                unreachable!();
            };
            out.push(bit_digit(bit))?;
        }
        Ok(())
    }
}

impl FromText for BitVec {
    ghost says = { λ text v. text ≡ bits_text v };

    ghost parses = { SaysAny (λ text v. text ≡ bits_text v) };

    fn from_text(alloc: Global, text: &str) -> Result<BitVec, Fault> {
        let mut bits = BitVec::new(alloc);
        let digits = text.as_bytes();
        for digit in digits {
            let Some(bit) = bit_of(*digit) else {
                return Err(no_value());
            };
            bits.push(bit)?;
        }
        Ok(bits)
    }
}

/// Returns the digit of a bit.
fn bit_digit(bit: bool) -> u8
    ensures { result ≡ bit_digit bit }
{
    if bit { b'1' } else { b'0' }
}

/// Returns the bit of a digit, or `None` if the digit is not 0 or 1.
fn bit_of(digit: u8) -> Option<bool>
    ensures { MatchOption result ((bit : Bool) → digit ≡ bit_digit bit → ⊥) (λ bit. digit ≡ bit_digit bit) }
{
    match digit {
        b'0' => Some(false),
        b'1' => Some(true),
        _ => None,
    }
}

/// The text of a bit string says it, and no other.
pub fn bits_are_read_back()
    ensures { IsReadBack (λ (v : List Bool). Unit {0}) ⟦<BitVec as ToText>⟧.shows ⟦<BitVec as FromText>⟧.says }
{}
