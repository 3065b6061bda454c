//! The tuples and the trailer.
ghost use Rattle.std.specs.Prelude.{◌≡◌, ◌+◌, ◌<◌, ◌↔◌, [], IfErr, IfNone, IfOk, IfSome, IsTrue, OnOk, pos};
ghost use Rattle.std.specs.Int.{w16};
ghost use Rattle.pg_base.specs.Cells.{IsBe};
ghost use Rattle.pg_tuples.specs.Reading.{NoFrame, StandsAt};
ghost use Rattle.pg_tuples.specs.Refusals.{HasNegativeLength, RefusesTupleOf};
ghost use Rattle.pg_tuples.specs.Tuples.{FrameThen, FramesThen};

use pg_base::protocol::split_number;
use thiserror::Error;

/// The trailer: -1 instead of a number of columns.
pub const TRAILER: &[u8; 2] = b"\xff\xff";

/// Why a tuple is refused.
#[derive(Debug, Clone, Copy, PartialEq, Eq, Error)]
pub enum TupleFault {
    /// The tuple has another number of columns.
    #[error("{got} columns in place of {expected}")]
    Columns { expected: usize, got: i16 },
    /// The length prefix of a column is negative, and is not -1. Columns are counted from 1.
    #[error("column {column}: negative length")]
    Length { column: usize },
}

/// The front of the bytes after the header.
#[derive(Debug, Clone, Copy)]
pub enum Front<'a> {
    /// A complete tuple.
    Tuple {
        /// The frames of its cells.
        frames: &'a [u8],
        /// The bytes after it.
        rest: &'a [u8],
    },
    /// The trailer, and the bytes after it.
    Trailer(&'a [u8]),
    /// A truncated tuple or trailer.
    Part,
}

/// Returns what is at the front of the bytes: a tuple of `columns` columns, the trailer, or a
/// truncated one of these.
///
/// A tuple is the number of columns in 2 bytes and the frame of each cell: a length of 4 bytes, -1
/// for NULL, and as many bytes. The trailer is -1 in 2 bytes. The numbers are big-endian.
pub fn front_of(bytes: &[u8], columns: usize) -> Result<Front<'_>, TupleFault>
    ensures ok { IfOk result (λ front. StandsAt columns bytes.now front) }
    ensures refused { IfErr result (RefusesTupleOf columns bytes.now) }
{
    let Some((count, fields)) = bytes.split_first_chunk::<2>() else {
        return Ok(Front::Part);
    };
    if count == TRAILER {
        return Ok(Front::Trailer(fields));
    }
    if !is_count(*count, columns) {
        return Err(TupleFault::Columns {
            expected: columns,
            got: number_in(*count),
        });
    }
    match after_frames(fields, columns) {
        Ok(rest) => {
            let (frames, _) = fields.split_at(fields.len() - rest.len());
            Ok(Front::Tuple { frames, rest })
        }
        Err((place, rest)) => {
            check_length(rest, place)?;
            Ok(Front::Part)
        }
    }
}

/// Returns the number in two bytes, big-endian.
fn number_in(bytes: [u8; 2]) -> i16
    ensures { IsBe w16 bytes result }
{
    let [high, low] = bytes;
    i16::from_be_bytes([high, low])
}

/// Whether the two bytes are this number of columns, big-endian.
pub fn is_count(count: [u8; 2], columns: usize) -> bool
    ensures { IsTrue result ↔ IsBe w16 count (pos columns) }
{
    match i16::try_from(columns) {
        Ok(columns) => count == columns.to_be_bytes(),
        Err(_) => false,
    }
}

/// Returns the bytes after `count` frames; or the index of the first frame that is truncated or has
/// a negative length other than -1, and the bytes from there.
fn after_frames(bytes: &[u8], count: usize) -> Result<&[u8], (usize, &[u8])>
    ensures ok { IfOk result (λ rest. FramesThen bytes.now count rest.now) }
    ensures err { IfErr result (λ at. (at.0 < count) × FramesThen bytes.now at.0 at.1.now × NoFrame at.1.now) }
{
    let mut rest = bytes;
    for place in 0..count {
        match after_frame(rest) {
            Some(after) => rest = after,
            None => return Err((place, rest)),
        }
    }
    Ok(rest)
}

/// Refuses a negative length other than -1, at this index of the row.
fn check_length(bytes: &[u8], place: usize) -> Result<(), TupleFault>
    requires { place < usize.MAX }
    ensures ok { OnOk result (HasNegativeLength bytes.now → ⊥) }
    ensures refused { IfErr result (λ fault. (fault ≡ TupleFault.Length (place + 1)) × HasNegativeLength bytes.now) }
{
    let Ok((len, _)) = split_number(bytes) else {
        return Ok(());
    };
    if len < -1 {
        let column = place + 1;
        return Err(TupleFault::Length { column });
    }
    Ok(())
}

/// Returns the bytes after the frame at the front; `None` if the frame is truncated, or has a
/// negative length other than -1.
fn after_frame(bytes: &[u8]) -> Option<&[u8]>
    ensures some { IfSome result (λ rest. FrameThen bytes.now rest.now) }
    ensures none { IfNone result (NoFrame bytes.now) }
{
    let Ok((len, rest)) = split_number(bytes) else {
        return None;
    };
    if len == -1 {
        return Some(rest);
    }
    if len < 0 || rest.len() < len as usize {
        return None;
    }
    let (_, after) = rest.split_at(len as usize);
    Some(after)
}
