//! The escapes of the text format of COPY.
ghost use Rattle.std.specs.Prelude.{◌≡◌, ◌+◌, ◌≤◌, ◌++◌, IfOk, OnOk, OnErr, length, true};
ghost use Rattle.std.specs.Bool.{OnTrue};
ghost use Rattle.std.specs.List.{list_all};
ghost use Rattle.pg_copy.specs.Escapes.{PlainBetween, escaped, escaped_byte, is_plain, letter_in, letter_of};
ghost use Rattle.pg_copy.specs.Outputs.{Extends};
ghost use Rattle.pg_copy.specs.TextLines.{Unescapes, is_refused_byte, letter_byte};

use std::alloc::AllocError;
use std::simd::prelude::*;

// The letter of each byte that is escaped, at the index of the byte; 0 for every other byte.
static LETTERS: [u8; 256] = *b"\
    \0\0\0\0\0\0\0\0btnvfr\0\0\0\0\0\0\0\0\0\0\0\0\0\0\0\0\0\0\
    \0\0\0\0\0\0\0\0\0\0\0\0\0\0\0\0\0\0\0\0\0\0\0\0\0\0\0\0\0\0\0\0\
    \0\0\0\0\0\0\0\0\0\0\0\0\0\0\0\0\0\0\0\0\0\0\0\0\0\0\0\0\\\0\0\0\
    \0\0\0\0\0\0\0\0\0\0\0\0\0\0\0\0\0\0\0\0\0\0\0\0\0\0\0\0\0\0\0\0\
    \0\0\0\0\0\0\0\0\0\0\0\0\0\0\0\0\0\0\0\0\0\0\0\0\0\0\0\0\0\0\0\0\
    \0\0\0\0\0\0\0\0\0\0\0\0\0\0\0\0\0\0\0\0\0\0\0\0\0\0\0\0\0\0\0\0\
    \0\0\0\0\0\0\0\0\0\0\0\0\0\0\0\0\0\0\0\0\0\0\0\0\0\0\0\0\0\0\0\0\
    \0\0\0\0\0\0\0\0\0\0\0\0\0\0\0\0\0\0\0\0\0\0\0\0\0\0\0\0\0\0\0\0";

/// Returns the letter that stands for the byte after a backslash, or 0 if it has none.
fn letter_at(byte: u8) -> u8
    ensures { letter_in result ≡ letter_of byte }
{
    LETTERS[byte as usize]
}

/// Returns the letter that stands for the byte after a backslash, or `None` if it has none.
fn escape_of(byte: u8) -> Option<u8>
    ensures { result ≡ letter_of byte }
{
    match letter_at(byte) {
        0 => None,
        letter => Some(letter),
    }
}

/// Returns the byte for which the letter stands after a backslash; any other byte stands for
/// itself.
fn escaped_by(letter: u8) -> u8
    ensures { result ≡ letter_byte letter }
{
    match letter {
        b'b' => 0x08,
        b't' => b'\t',
        b'n' => b'\n',
        b'v' => 0x0b,
        b'f' => 0x0c,
        b'r' => b'\r',
        other => other,
    }
}

/// Whether no byte of the text is escaped. It reads all bytes, without a branch for each.
fn is_plain(text: &[u8]) -> bool
    ensures { result ≡ list_all is_plain text.now }
{
    let mut letters = 0;
    'bytes: for byte in text {
        letters |= letter_at(*byte);
    }
    letters == 0
}

/// Whether none of 4 bytes from an index is a control character or a backslash, so that none is
/// escaped.
#[inline(always)]
fn are_4_plain(text: &[u8], at: usize) -> bool
    requires { at + 4 ≤ length text.now }
    ensures { OnTrue result (PlainBetween text.now at (at + 4)) }
{
    let bytes = u8x4::from_slice(&text[at..]);
    bytes.simd_lt(u8x4::splat(0x20)).to_bitmask() == 0
        && bytes.simd_eq(u8x4::splat(b'\\')).to_bitmask() == 0
}

/// Whether none of 8 bytes from an index is a control character or a backslash.
#[inline(always)]
fn are_8_plain(text: &[u8], at: usize) -> bool
    requires { at + 8 ≤ length text.now }
    ensures { OnTrue result (PlainBetween text.now at (at + 8)) }
{
    let bytes = u8x8::from_slice(&text[at..]);
    bytes.simd_lt(u8x8::splat(0x20)).to_bitmask() == 0
        && bytes.simd_eq(u8x8::splat(b'\\')).to_bitmask() == 0
}

/// Whether none of 16 bytes from an index is a control character or a backslash.
#[inline(always)]
fn are_16_plain(text: &[u8], at: usize) -> bool
    requires { at + 16 ≤ length text.now }
    ensures { OnTrue result (PlainBetween text.now at (at + 16)) }
{
    let bytes = u8x16::from_slice(&text[at..]);
    bytes.simd_lt(u8x16::splat(0x20)).to_bitmask() == 0
        && bytes.simd_eq(u8x16::splat(b'\\')).to_bitmask() == 0
}

/// Whether no byte of the text is escaped; a text with other control characters may be taken for
/// one with escapes. The last bytes of a long text are tested together with some before them.
#[inline(always)]
fn is_surely_plain(text: &[u8]) -> bool
    ensures { OnTrue result (list_all is_plain text.now ≡ true) }
{
    let len = text.len();
    if len < 4 {
        return is_plain(text);
    }
    if len < 8 {
        return are_4_plain(text, 0) && are_4_plain(text, len - 4);
    }
    if len < 16 {
        return are_8_plain(text, 0) && are_8_plain(text, len - 8);
    }
    are_first_plain(text, len - 16) && are_16_plain(text, len - 16)
}

/// Whether none of the bytes up to an index, and of some after it, is a control character or a
/// backslash.
#[inline(always)]
fn are_first_plain(text: &[u8], end: usize) -> bool
    requires { end + 16 ≤ length text.now }
    ensures { OnTrue result (PlainBetween text.now 0 end) }
{
    let mut at = 0;
    'bytes: while at < end {
        if !are_16_plain(text, at) {
            return false;
        }
        at += 16;
    }
    true
}

/// Appends the text with a backslash and a letter for each byte that has one
/// (`CopyAttributeOutText`). An error leaves a part of it.
// It is called for each value.
#[inline(always)]
pub fn escape(text: &[u8], out: &mut Vec<u8>) -> Result<(), AllocError>
    ensures ok { OnOk result (out.new.items ≡ out.old.items ++ escaped text.now) }
    ensures err { OnErr result (Extends out.old.items out.new.items) }
{
    // Most texts have no such byte.
    if is_surely_plain(text) {
        return out.extend_from_slice(text);
    }
    escape_each(text, out)
}

/// Appends the text as [`escape`] does, byte by byte.
#[inline(never)]
fn escape_each(text: &[u8], out: &mut Vec<u8>) -> Result<(), AllocError>
    ensures ok { OnOk result (out.new.items ≡ out.old.items ++ escaped text.now) }
    ensures err { OnErr result (Extends out.old.items out.new.items) }
{
    'bytes: for byte in text {
        push_escaped(*byte, out)?;
    }
    Ok(())
}

/// Appends the byte, or a backslash and the letter that stands for it.
fn push_escaped(byte: u8, out: &mut Vec<u8>) -> Result<(), AllocError>
    ensures ok { OnOk result (out.new.items ≡ out.old.items ++ escaped_byte byte (letter_of byte)) }
    ensures err { OnErr result (out.new.items ≡ out.old.items) }
{
    match escape_of(byte) {
        Some(letter) => out.extend_from_slice(&[b'\\', letter]),
        None => Ok(out.push(byte)?),
    }
}

/// Whether the byte is refused after a backslash: a digit of an octal number, the x of a
/// hexadecimal one, or the period, which ends the data. The server writes none of them.
fn is_refused(byte: u8) -> bool
    ensures { result ≡ is_refused_byte byte }
{
    matches!(byte, b'0'..=b'7' | b'x' | b'.')
}

/// Appends the text for which the escaped text stands, and returns whether there is one. A
/// backslash at the end is refused, and so is a carriage return that is not escaped.
pub fn unescape(text: &[u8], out: &mut Vec<u8>) -> Result<bool, AllocError>
    ensures { IfOk result (Unescapes text.now out.old.items out.new.items) }
{
    let mut is_escaped = false;
    'bytes: for byte in text {
        if is_escaped {
            if is_refused(*byte) {
                return Ok(false);
            }
            out.push(escaped_by(*byte))?;
            is_escaped = false;
        } else {
            match *byte {
                b'\\' => is_escaped = true,
                b'\r' => return Ok(false),
                other => out.push(other)?,
            }
        }
    }
    Ok(!is_escaped)
}
