//! The messages that a server sends.
ghost use Rattle.std.specs.Prelude.{◌≡◌, ◌+◌, ◌≤◌, MatchOption, pos};
ghost use Rattle.pg_messages.specs.Framing.{IsRefusedLength, Takes};
ghost use Rattle.pg_messages.specs.Receiving.{Receives};

use crate::message::Message;
use crate::split::split_int4;
use thiserror::Error;

/// Why a message is refused.
#[derive(Debug, Clone, Copy, PartialEq, Eq, Error)]
pub enum MessageFault {
    /// The length of a message is less than 4, or more than is taken.
    #[error("a message of length {0}")]
    Length(i32),
    /// No message of a server has this tag.
    #[error("a message of an unknown kind, {0}")]
    Kind(u8),
    /// The body of the message with this tag is not of its format.
    #[error("a damaged message of kind {0}")]
    Body(u8),
}

/// What is at the front of the bytes that a server sent.
#[derive(Debug, Clone, Copy)]
pub enum Received<'a> {
    /// A message.
    Message(Message<'a>),
    /// A truncated message, of which so many bytes are missing. Before its length is there, these
    /// are the bytes up to the end of the length.
    Part(usize),
}

/// What is at the front of the bytes that a server sent, before the body of a message is read.
#[derive(Debug, Clone, Copy)]
pub enum Front<'a> {
    /// A message: its tag and its body.
    Message(u8, &'a [u8]),
    /// A truncated message, of which so many bytes are missing, as in [`Received`].
    Part(usize),
}

/// Takes the message at the front of the bytes, and reads it. A truncated one, and an error, leave
/// the bytes as they were. A message of which the body has more than `most` bytes is refused with
/// `Length`, as soon as its length is there, and a damaged one as by [`Message::parse`].
pub fn take_message<'a>(bytes: &mut &'a [u8], most: usize) -> Result<Received<'a>, MessageFault>
    ensures { Receives most bytes.old.now result bytes.new.now }
{
    let mut rest = *bytes;
    match take_front(&mut rest, most)? {
        Front::Message(tag, body) => {
            let message = Message::parse(tag, body)?;
            *bytes = rest;
            Ok(Received::Message(message))
        }
        Front::Part(missing) => Ok(Received::Part(missing)),
    }
}

/// Takes the message at the front of the bytes as [`take_message`] does, and does not read its body,
/// so that a message of any kind is taken.
pub fn take_front<'a>(bytes: &mut &'a [u8], most: usize) -> Result<Front<'a>, MessageFault>
    ensures { Takes most bytes.old.now result bytes.new.now }
{
    let [tag, after @ ..] = *bytes else {
        return Ok(Front::Part(5));
    };
    let Some((len, rest)) = split_int4(after) else {
        return Ok(Front::Part(4 - after.len()));
    };
    let Some(len) = body_len(len, most) else {
        return Err(MessageFault::Length(len));
    };
    if rest.len() < len {
        return Ok(Front::Part(len - rest.len()));
    }
    let (body, rest) = rest.split_at(len);
    *bytes = rest;
    Ok(Front::Message(*tag, body))
}

/// Returns the length of the body of a message of this length, which counts itself; `None` if it
/// is too small or too large.
fn body_len(len: i32, most: usize) -> Option<usize>
    ensures { MatchOption result (IsRefusedLength most len) (λ n. (len ≡ pos (4 + n)) × (n ≤ most)) }
{
    match usize::try_from(len) {
        Ok(len) if 4 <= len && len - 4 <= most => Some(len - 4),
        _ => None,
    }
}
