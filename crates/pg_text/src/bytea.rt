//! The texts of byte strings.
ghost use Rattle.std.specs.Prelude.{◌≡◌, ◌<◌, ◌++◌, IfSome, MatchResult, Ok, OnOk, ◌↔◌, ℕ, [], List, Vec, length, option_map};
ghost use Rattle.std.specs.Global.{Global};
ghost use Rattle.std.specs.Borrow.{Bor};
ghost use Rattle.hex.specs.Hex.{decode_of, encode_lower, IsBytes};
ghost use Rattle.pg_types.specs.declared.fault.Fault.TheVariants.{Memory};
ghost use Rattle.pg_text.specs.Texts.{SaysAny, SaysBytes, SaysEscaped, Shows, bytes_text, escaped_byte};

use crate::numbers::octal;
use crate::{FromText, ToText, no_value};
use hex::FromHexError;
use postgres_types::Fault;
use std::alloc::{AllocError, Global};

/// Writes `\x` and two hexadecimal digits for each byte (`byteaout`, with bytea_output `hex`).
impl ToText for &[u8] {
    ghost shows = { Shows (λ s. bytes_text s.now) };

    fn to_text(&self, _alloc: Global, out: &mut Vec<u8>) -> Result<(), AllocError> {
        out.extend_from_slice(b"\\x")?;
        push_hex(self, out)
    }
}

/// Appends two lower-case hexadecimal digits for each byte.
pub fn push_hex(bytes: &[u8], out: &mut Vec<u8>) -> Result<(), AllocError>
    ensures { OnOk result (out.new.items ≡ out.old.items ++ encode_lower bytes.now) }
{
    let start = out.len();
    if bytes.len() > (usize::MAX - start) / 2 {
        return Err(AllocError);
    }
    out.resize(start + 2 * bytes.len(), 0)?;
    match hex::encode_to_slice(bytes, &mut out[start..]) {
        Ok(()) => Ok(()),
        Err(_) => unreachable!(),
    }
}

/// Parses `\x` and two hexadecimal digits of either case for each byte, or the escape format, in
/// which a backslash stands before a backslash and before the three octal digits of a byte
/// (`byteain`).
impl FromText for Vec<u8> {
    ghost says = { λ text v. SaysBytes text v.items };

    ghost parses = { SaysAny SaysBytes };

    fn from_text(alloc: Global, text: &str) -> Result<Vec<u8>, Fault> {
        let Some(digits) = text.strip_prefix("\\x") else {
            return unescape(alloc, text);
        };
        decode(alloc, digits)
    }
}

/// Parses two hexadecimal digits for each byte.
fn decode(alloc: Global, digits: &str) -> Result<Vec<u8>, Fault>
    ensures { MatchResult result (λ bytes. decode_of digits.now ≡ Ok bytes.items)
        (λ fault. SaysAny (λ text bytes. decode_of text ≡ Ok bytes) digits.now → fault ≡ Memory) }
{
    match hex::decode(alloc, digits) {
        Ok(bytes) => Ok(bytes),
        Err(FromHexError::OutOfMemory) => Err(Fault::Memory),
        Err(_) => Err(no_value()),
    }
}

/// Parses the escape format.
fn unescape(alloc: Global, text: &str) -> Result<Vec<u8>, Fault>
    ensures { MatchResult result (λ bytes. SaysEscaped text.now bytes.items)
        (λ fault. SaysAny SaysEscaped text.now → fault ≡ Memory) }
{
    let mut bytes = Vec::new(alloc);
    let mut rest = text.as_bytes();
    while !rest.is_empty() {
        let Some((byte, after)) = escaped_byte(rest) else {
            return Err(no_value());
        };
        bytes.push(byte)?;
        rest = after;
    }
    Ok(bytes)
}

/// Returns the first byte of the escape format and what follows it; `None` if there is none.
fn escaped_byte(text: &[u8]) -> Option<(u8, &[u8])>
    ensures byte { option_map (λ byte. (byte.0, byte.1.now)) result ≡ escaped_byte text.now }
    ensures shorter { IfSome result (λ byte. length byte.1.now < length text.now) }
{
    match text {
        [b'\\', b'\\', rest @ ..] => Some((b'\\', rest)),
        [b'\\', a, b, c, rest @ ..] => Some((octal(*a, *b, *c)?, rest)),
        [b'\\', ..] | [] => None,
        [byte, rest @ ..] => Some((*byte, rest)),
    }
}

/// The text of a slice of bytes says them as a vector, and no others.
pub fn bytea_is_read_back()
    ensures { (s : Bor (List ℕ)) (text : List ℕ) (v : Vec ℕ Global) → IsBytes s.now
        → ⟦<&'static [u8] as ToText>⟧.shows s [] text → ⟦<Vec<u8> as FromText>⟧.says text v ↔ (v.items ≡ s.now) }
{}
