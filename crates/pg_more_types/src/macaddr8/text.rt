//! The texts of MACADDR8.
ghost use Rattle.std.specs.Prelude.{◌≡◌, ◌∷◌, [], MatchOption, None, Some, length};
ghost use Rattle.std.specs.List.{find};
ghost use Rattle.hex.specs.Hex.{IsBytes};
ghost use Rattle.pg_base.specs.NetworkTexts.{macaddr_text, pair_text};
ghost use Rattle.pg_more_types.specs.Macaddr8.{ParsesMacaddr8, SaysMacaddr8, after_separator, byte_said};
ghost use Rattle.pg_more_types.specs.Macaddr8.{bytes_said, is_separator};
ghost use Rattle.pg_text.specs.ReadBack.{IsReadBack};
ghost use Rattle.pg_text.specs.Texts.{SaysAny, Shows};

use super::MacAddress8;
use pg_text::{FromText, ToText, no_value};
use postgres_types::Fault;
use std::alloc::{AllocError, Global};
use std::str::FromStr;
use std::{fmt, str};

impl MacAddress8 {
    /// Returns the text.
    fn text(&self) -> [u8; 23]
        ensures { result ≡ macaddr_text self.now }
    {
        let [a, b, c, d, e, f, g, h] = self.0;
        let (a, b, c, d) = (pair(a), pair(b), pair(c), pair(d));
        let (e, f, g, h) = (pair(e), pair(f), pair(g), pair(h));
        [
            a.0, a.1, b':', b.0, b.1, b':', c.0, c.1, b':', d.0, d.1, b':', e.0, e.1, b':', f.0,
            f.1, b':', g.0, g.1, b':', h.0, h.1,
        ]
    }
}

/// Returns the two lower-case hexadecimal digits of a byte.
fn pair(byte: u8) -> (u8, u8)
    ensures { pair_text byte ≡ result.0 ∷ result.1 ∷ [] }
{
    let mut digits = [0; 2];
    match hex::encode_to_slice(&[byte], &mut digits) {
        Ok(()) => (digits[0], digits[1]),
        Err(_) => unreachable!(),
    }
}

/// Writes the bytes as two lower-case hexadecimal digits each, with `:` between them
/// (`macaddr8_out`).
impl fmt::Display for MacAddress8 {
    ghost output = { λ bytes. Some (macaddr_text bytes) };

    fn fmt<W: fmt::Write>(&self, f: &mut fmt::Formatter<W>) -> fmt::Result {
        f.write_str(str::from_utf8(&self.text()).map_err(|_| fmt::Error)?)
    }
}

/// Writes the text of `Display`.
impl ToText for MacAddress8 {
    ghost shows = { Shows macaddr_text };

    fn to_text(&self, _alloc: Global, out: &mut Vec<u8>) -> Result<(), AllocError> {
        out.extend_from_slice(&self.text())
    }
}

/// Parses eight bytes, each of two hexadecimal digits of either case. A `:`, `-` or `.` may stand
/// after each, and is the same in the whole text (`macaddr8_in`, which takes six bytes, too). Any
/// other text is refused with `User`.
impl FromStr for MacAddress8 {
    type Err = Fault;

    ghost from_str_gives = { ParsesMacaddr8 };

    fn from_str(text: &str) -> Result<MacAddress8, Fault> {
        match parse(text) {
            Some(bytes) => Ok(MacAddress8(bytes)),
            None => Err(no_value()),
        }
    }
}

/// Parses the texts of `FromStr`.
impl FromText for MacAddress8 {
    ghost says = { SaysMacaddr8 };

    ghost parses = { SaysAny SaysMacaddr8 };

    fn from_text(_alloc: Global, text: &str) -> Result<MacAddress8, Fault> {
        text.parse()
    }
}

/// Parses eight bytes.
fn parse(text: &str) -> Option<[u8; 8]>
    ensures { result ≡ bytes_said 8 (find is_separator text.now) text.now }
{
    let separator = separator_of(text);
    let mut rest = text.as_bytes();
    let mut bytes = [0; 8];
    for place in 0..8 {
        bytes[place] = take_byte(separator, &mut rest)?;
    }
    if rest.is_empty() { Some(bytes) } else { None }
}

/// Returns the first separator of the text.
fn separator_of(text: &str) -> Option<u8>
    ensures { result ≡ find is_separator text.now }
{
    let mut bytes = text.as_bytes().iter().copied();
    bytes.find(|byte| is_separator(*byte))
}

/// Takes a byte from the front of the text, and the separator if it stands after it.
fn take_byte(separator: Option<u8>, text: &mut &[u8]) -> Option<u8>
    ensures { MatchOption result (byte_said separator text.old.now ≡ None) (λ byte.
        byte_said separator text.old.now ≡ Some (byte, text.new.now)) }
{
    let [high, low, rest @ ..] = *text else {
        return None;
    };
    let mut byte = [0];
    hex::decode_to_slice(&[*high, *low], &mut byte).ok()?;
    *text = after_separator(separator, rest);
    Some(byte[0])
}

/// Returns the text without the separator at its front.
fn after_separator(separator: Option<u8>, text: &[u8]) -> &[u8]
    ensures { result.now ≡ after_separator separator text.now }
{
    match text {
        [byte, rest @ ..] if Some(*byte) == separator => rest,
        _ => text,
    }
}

/// Whether the byte may stand between two others.
fn is_separator(byte: u8) -> bool
    ensures { result ≡ is_separator byte }
{
    matches!(byte, b':' | b'-' | b'.')
}

/// The text of a MAC address says it, and no other.
pub fn macaddr8_is_read_back()
    ensures { IsReadBack (λ v. (length v ≡ 8) × IsBytes v) ⟦<MacAddress8 as ToText>⟧.shows
        ⟦<MacAddress8 as FromText>⟧.says }
{}
