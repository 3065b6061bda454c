//! The texts of integers, booleans and `"char"`.
ghost use Rattle.std.specs.Prelude.{decimal, Bool, FitsSigned, IsTrue, ◌↔◌, ◌≡◌, ◌<◌, ◌^◌, ℕ, false, true};
ghost use Rattle.std.specs.Int.{w16, w32, w64, w8};
ghost use Rattle.std.specs.Fmt.{signed_decimal};
ghost use Rattle.pg_base.specs.NumberTexts.{SaysSigned, SaysUnsigned};
ghost use Rattle.pg_text.specs.ReadBack.{IsReadBack};
ghost use Rattle.pg_text.specs.Spaces.{Trimmed};
ghost use Rattle.pg_text.specs.Texts.{IsPrefix, SaysAny, SaysBool, SaysChar, Shows, bool_text, char_text};
ghost use Rattle.pg_text.specs.Texts.{octal_of};

use crate::digits::push_number;
use crate::spaces::trimmed;
use crate::{FromText, ToText, no_value};
use postgres_types::Fault;
use std::alloc::{AllocError, Global};

/// Writes `t` or `f` (`boolout`).
impl ToText for bool {
    ghost shows = { Shows bool_text };

    fn to_text(&self, _alloc: Global, out: &mut Vec<u8>) -> Result<(), AllocError> {
        out.extend_from_slice(if *self { b"t" } else { b"f" })
    }
}

/// Parses `true`, `yes`, `on`, `1`, `false`, `no`, `off` and `0`, in either case, or their first
/// letters, of which `on` and `off` need two (`boolin`); white space may stand around them.
impl FromText for bool {
    ghost says = { Trimmed SaysBool };

    ghost parses = { SaysAny (Trimmed SaysBool) };

    fn from_text(_alloc: Global, text: &str) -> Result<bool, Fault> {
        let text = trimmed(text);
        if is_true(text) {
            Ok(true)
        } else if is_false(text) {
            Ok(false)
        } else {
            Err(no_value())
        }
    }
}

/// Whether the text is a word for true.
fn is_true(text: &str) -> bool
    ensures { IsTrue result ↔ SaysBool text.now true }
{
    is_prefix(text, 1, "true")
        || is_prefix(text, 1, "yes")
        || is_prefix(text, 2, "on")
        || is_prefix(text, 1, "1")
}

/// Whether the text is a word for false.
fn is_false(text: &str) -> bool
    ensures { IsTrue result ↔ SaysBool text.now false }
{
    is_prefix(text, 1, "false")
        || is_prefix(text, 1, "no")
        || is_prefix(text, 2, "off")
        || is_prefix(text, 1, "0")
}

/// Whether the text has the first letters of the word, in either case, and at least so many.
fn is_prefix(text: &str, least: usize, word: &str) -> bool
    ensures { IsTrue result ↔ IsPrefix least word.now text.now }
{
    let letters = text.as_bytes();
    match word.as_bytes().get(..letters.len()) {
        Some(front) => letters.len() >= least && letters.eq_ignore_ascii_case(front),
        None => false,
    }
}

/// Writes nothing for 0, a backslash and three octal digits for a byte from 128 on, and otherwise
/// the byte itself (`charout`).
impl ToText for i8 {
    ghost shows = { Shows char_text };

    fn to_text(&self, _alloc: Global, out: &mut Vec<u8>) -> Result<(), AllocError> {
        let byte = self.cast_unsigned();
        match byte {
            0 => Ok(()),
            1..=127 => Ok(out.push(byte)?),
            _ => out.extend_from_slice(&[
                b'\\',
                b'0' + byte / 64,
                b'0' + byte / 8 % 8,
                b'0' + byte % 8,
            ]),
        }
    }
}

/// Parses no text, a byte, or a backslash and three octal digits of a byte.
impl FromText for i8 {
    ghost says = { SaysChar };

    ghost parses = { SaysAny SaysChar };

    fn from_text(_alloc: Global, text: &str) -> Result<i8, Fault> {
        match text.as_bytes() {
            [] => Ok(0),
            [byte] => Ok(byte.cast_signed()),
            [b'\\', high, middle, low] => {
                let byte = octal(*high, *middle, *low).ok_or_else(no_value)?;
                Ok(byte.cast_signed())
            }
            _ => Err(no_value()),
        }
    }
}

/// Returns the byte of three octal digits, or `None` if they are not one.
pub fn octal(high: u8, middle: u8, low: u8) -> Option<u8>
    ensures { result ≡ octal_of high middle low }
{
    match (high, middle, low) {
        (b'0'..=b'3', b'0'..=b'7', b'0'..=b'7') => {
            Some((high - b'0') * 64 + (middle - b'0') * 8 + (low - b'0'))
        }
        _ => None,
    }
}

/// Writes decimal digits (`int2out`).
impl ToText for i16 {
    ghost shows = { Shows signed_decimal };

    fn to_text(&self, _alloc: Global, out: &mut Vec<u8>) -> Result<(), AllocError> {
        push_number(*self, out)
    }
}

/// Parses decimal digits, after a sign, if any; white space may stand around them.
impl FromText for i16 {
    ghost says = { Trimmed SaysSigned };

    ghost parses = { SaysAny (Trimmed (λ text v. SaysSigned text v × FitsSigned w16 v)) };

    fn from_text(_alloc: Global, text: &str) -> Result<i16, Fault> {
        trimmed(text).parse().map_err(|_| no_value())
    }
}

/// Writes decimal digits (`int4out`).
impl ToText for i32 {
    ghost shows = { Shows signed_decimal };

    fn to_text(&self, _alloc: Global, out: &mut Vec<u8>) -> Result<(), AllocError> {
        push_number(*self, out)
    }
}

/// Parses decimal digits, after a sign, if any; white space may stand around them.
impl FromText for i32 {
    ghost says = { Trimmed SaysSigned };

    ghost parses = { SaysAny (Trimmed (λ text v. SaysSigned text v × FitsSigned w32 v)) };

    fn from_text(_alloc: Global, text: &str) -> Result<i32, Fault> {
        trimmed(text).parse().map_err(|_| no_value())
    }
}

/// Writes decimal digits (`int8out`).
impl ToText for i64 {
    ghost shows = { Shows signed_decimal };

    fn to_text(&self, _alloc: Global, out: &mut Vec<u8>) -> Result<(), AllocError> {
        push_number(*self, out)
    }
}

/// Parses decimal digits, after a sign, if any; white space may stand around them.
impl FromText for i64 {
    ghost says = { Trimmed SaysSigned };

    ghost parses = { SaysAny (Trimmed (λ text v. SaysSigned text v × FitsSigned w64 v)) };

    fn from_text(_alloc: Global, text: &str) -> Result<i64, Fault> {
        trimmed(text).parse().map_err(|_| no_value())
    }
}

/// Writes decimal digits (`oidout`).
impl ToText for u32 {
    ghost shows = { Shows decimal };

    fn to_text(&self, _alloc: Global, out: &mut Vec<u8>) -> Result<(), AllocError> {
        push_number(*self, out)
    }
}

/// Parses decimal digits, after a plus sign, if any; white space may stand around them.
impl FromText for u32 {
    ghost says = { Trimmed SaysUnsigned };

    ghost parses = { SaysAny (Trimmed (λ text n. SaysUnsigned text n × (n < 2 ^ 32))) };

    fn from_text(_alloc: Global, text: &str) -> Result<u32, Fault> {
        trimmed(text).parse().map_err(|_| no_value())
    }
}

/// The text of a boolean says it, and no other.
pub fn bool_is_read_back()
    ensures { IsReadBack (λ (v : Bool). Unit {0}) ⟦<bool as ToText>⟧.shows ⟦<bool as FromText>⟧.says }
{}

/// The text of a CHAR says it, and no other.
pub fn char_is_read_back()
    ensures { IsReadBack (FitsSigned w8) ⟦<i8 as ToText>⟧.shows ⟦<i8 as FromText>⟧.says }
{}

/// The text of an INT2 says it, and no other.
pub fn int2_is_read_back()
    ensures { IsReadBack (FitsSigned w16) ⟦<i16 as ToText>⟧.shows ⟦<i16 as FromText>⟧.says }
{}

/// The text of an INT4 says it, and no other.
pub fn int4_is_read_back()
    ensures { IsReadBack (FitsSigned w32) ⟦<i32 as ToText>⟧.shows ⟦<i32 as FromText>⟧.says }
{}

/// The text of an INT8 says it, and no other.
pub fn int8_is_read_back()
    ensures { IsReadBack (FitsSigned w64) ⟦<i64 as ToText>⟧.shows ⟦<i64 as FromText>⟧.says }
{}

/// The text of an OID says it, and no other.
pub fn oid_is_read_back()
    ensures { IsReadBack (λ (n : ℕ). n < 2 ^ 32) ⟦<u32 as ToText>⟧.shows ⟦<u32 as FromText>⟧.says }
{}
