//! What a line asks for.
ghost use Rattle.std.specs.Prelude.{◌≡◌, ◌∷◌, [], ◌==◌, Some, IfSome, IfNone, IfOk, option_map};
ghost use Rattle.hex.specs.Hex.{decode_of};
ghost use Rattle.pgcell.specs.Request.{cell_of_word, lsn_of_text, norm_of, oid_of_word, request_of, view};
ghost use Rattle.pgcell.specs.Request.{digits_cell, split, type_of};
ghost use Rattle.postgres_types.specs.Cells.{cell_of};

use bytes::BytesMut;
use named_types::Name;
use postgres_types::Oid;
use std::alloc::AllocError;
use streams::split::split_once;

/// A line that is well formed.
#[derive(Debug, Clone, Copy)]
pub enum Request<'a> {
    /// `norm NAME CELL`: to rewrite a cell (`None` is NULL).
    Norm(Name, Option<&'a [u8]>),
    /// `type OID`: to print a type.
    TypeOf(Oid),
    /// `lsn TEXT`: to print a log sequence number.
    Lsn(&'a str),
}

impl<'a> Request<'a> {
    /// Returns what the line asks for, or `None` if it is not well formed. `bytes` is overwritten
    /// with the bytes of a cell.
    pub fn parse(line: &'a [u8], bytes: &'a mut BytesMut) -> Result<Option<Request<'a>>, AllocError>
        ensures { IfOk result (λ request. option_map view request ≡ request_of line.now) }
    {
        if let Some(words) = line.strip_prefix(b"norm ") {
            return Request::parse_norm(words, bytes);
        }
        if let Some(word) = line.strip_prefix(b"type ") {
            return Ok(Request::parse_type(word));
        }
        if let Some(text) = line.strip_prefix(b"lsn ") {
            return Ok(Request::parse_lsn(text));
        }
        Ok(None)
    }

    /// Returns what `norm` and these words ask for.
    fn parse_norm(
        words: &'a [u8],
        bytes: &'a mut BytesMut,
    ) -> Result<Option<Request<'a>>, AllocError>
        ensures { IfOk result (λ request. option_map view request ≡ norm_of words.now) }
    {
        let Some((name, cell)) = split_word(words) else {
            return Ok(None);
        };
        let Some(name) = Name::parse(name) else {
            return Ok(None);
        };
        let Some(cell) = parse_cell(cell, bytes)? else {
            return Ok(None);
        };
        Ok(Some(Request::Norm(name, cell)))
    }

    /// Returns what `type` and this word ask for.
    fn parse_type(word: &'a [u8]) -> Option<Request<'a>>
        ensures { option_map view result ≡ option_map type_of (oid_of_word word.now) }
    {
        let oid = parse_oid(word)?;
        Some(Request::TypeOf(oid))
    }

    /// Returns what `lsn` and this text ask for.
    fn parse_lsn(text: &'a [u8]) -> Option<Request<'a>>
        ensures { option_map view result ≡ lsn_of_text text.now }
    {
        match str::from_utf8(text) {
            Ok(text) => Some(Request::Lsn(text)),
            Err(_) => None,
        }
    }
}

/// Returns the cell that the word spells: `NULL`, `-` for no bytes, or an even, positive number of
/// hexadecimal digits. `bytes` is overwritten with its bytes.
fn parse_cell<'a>(
    word: &[u8],
    bytes: &'a mut BytesMut,
) -> Result<Option<Option<&'a [u8]>>, AllocError>
    ensures { IfOk result (λ cell. option_map cell_of cell ≡ cell_of_word word.now) }
{
    match word {
        b"NULL" => Ok(Some(None)),
        b"-" => Ok(Some(Some(&[]))),
        [] => Ok(None),
        digits => match decode(digits, bytes)? {
            Some(bytes) => Ok(Some(Some(bytes))),
            None => Ok(None),
        },
    }
}

/// Returns the bytes that the digits spell, or `None` if they spell none. `bytes` is overwritten
/// with them.
fn decode<'a>(digits: &[u8], bytes: &'a mut BytesMut) -> Result<Option<&'a [u8]>, AllocError>
    ensures { IfOk result (λ cell. option_map (λ b. Some b.now) cell ≡ digits_cell (decode_of digits.now)) }
{
    bytes.clear();
    bytes.reserve(digits.len() / 2)?;
    bytes.advance_mut(digits.len() / 2);
    match hex::decode_to_slice(digits, bytes.as_mut_slice()) {
        Ok(()) => Ok(Some(bytes.as_slice())),
        Err(_) => Ok(None),
    }
}

/// Returns the OID in 1 to 10 decimal digits, or `None` if there is none.
fn parse_oid(word: &[u8]) -> Option<Oid>
    ensures { result ≡ oid_of_word word.now }
{
    if word.len() > 10 || word.starts_with(b"+") {
        return None;
    }
    match str::from_utf8(word) {
        Ok(digits) => digits.parse().ok(),
        Err(_) => None,
    }
}

/// Returns the word before the first space, and the text after it.
#[tactic(auto, using(crate::proofs::Requests::split_more, crate::proofs::Requests::split_none))]
fn split_word(line: &[u8]) -> Option<(&[u8], &[u8])>
    ensures { option_map (λ parts. (parts.0.now, parts.1.now)) result ≡ split 32 line.now }
{
    split_once(line, b' ')
}
