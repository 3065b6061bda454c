//! The messages that a client sends. Each call appends one to a buffer.
//!
//! A text with a zero byte is refused with `User`, with the text `zero byte in a text`, and a message
//! of more than 2,147,483,647 bytes with `Transmit`. An error, `Memory` included, leaves the bytes of
//! the buffer as they were; `Memory` is an error only where the buffer has no room for the message.
ghost use Rattle.std.specs.Prelude.{[]};
ghost use Rattle.pg_messages.specs.Fields.{Sends};
ghost use Rattle.pg_messages.specs.Beginnings.{Begins, Ends, begun_bind};
ghost use Rattle.pg_messages.specs.Frontend.{cancel_request, close, copy_data, copy_fail, describe, empty};
ghost use Rattle.pg_messages.specs.Frontend.{execute, gssenc_request, parse, password_message, query};
ghost use Rattle.pg_messages.specs.Frontend.{sasl_initial_response, sasl_response, ssl_request, startup};

use crate::field::{Field, append};
use bytes::BytesMut;
use pg_base::protocol::{MAX_LEN, set_number};
use pg_types::fault::Fault;
use pg_types::types::Oid;

/// Version 3.0 of the protocol: its two parts in 2 bytes each.
const VERSION: i32 = 196_608;

/// Appends a StartupMessage, the first message of a connection: the version 3.0 of the protocol, and
/// the names and values of parameters, of which `user` is required. An empty name, which would end
/// the list, is refused with `User`, with the text `empty name of a parameter`.
pub fn startup_message(parameters: &[(&str, &str)], out: &mut BytesMut) -> Result<(), Fault>
    ensures { Sends (startup parameters.now) out.old out.new result }
{
    append(
        b"",
        &[
            Field::Int4(VERSION),
            Field::Pairs(parameters),
            Field::Byte(0),
        ],
        out,
    )
}

/// Appends an SSLRequest. The server answers `S` or `N`, which are no messages.
pub fn ssl_request(out: &mut BytesMut) -> Result<(), Fault>
    ensures { Sends (ssl_request) out.old out.new result }
{
    append(b"", &[Field::Int4(80_877_103)], out)
}

/// Appends a GSSENCRequest. The server answers `G` or `N`, which are no messages.
pub fn gssenc_request(out: &mut BytesMut) -> Result<(), Fault>
    ensures { Sends (gssenc_request) out.old out.new result }
{
    append(b"", &[Field::Int4(80_877_104)], out)
}

/// Appends a CancelRequest, the only message of its connection: the process and the key of the
/// BackendKeyData message of the connection whose query is to be cancelled.
pub fn cancel_request(process: i32, key: &[u8], out: &mut BytesMut) -> Result<(), Fault>
    ensures { Sends (cancel_request process key.now) out.old out.new result }
{
    append(
        b"",
        &[
            Field::Int4(80_877_102),
            Field::Int4(process),
            Field::Bytes(key),
        ],
        out,
    )
}

/// Appends a PasswordMessage: the password, or its MD5 digest as the server asked for it.
pub fn password_message(password: &str, out: &mut BytesMut) -> Result<(), Fault>
    ensures { Sends (password_message password.now) out.old out.new result }
{
    append(b"p", &[Field::String(password)], out)
}

/// Appends a SASLInitialResponse: the name of the mechanism, and its first response.
pub fn sasl_initial_response(
    mechanism: &str,
    response: &[u8],
    out: &mut BytesMut,
) -> Result<(), Fault>
    ensures { Sends (sasl_initial_response mechanism.now response.now) out.old out.new result }
{
    append(
        b"p",
        &[Field::String(mechanism), Field::Sized(response)],
        out,
    )
}

/// Appends a SASLResponse.
pub fn sasl_response(response: &[u8], out: &mut BytesMut) -> Result<(), Fault>
    ensures { Sends (sasl_response response.now) out.old out.new result }
{
    append(b"p", &[Field::Bytes(response)], out)
}

/// Appends a Query message: a simple query.
pub fn query(text: &str, out: &mut BytesMut) -> Result<(), Fault>
    ensures { Sends (query text.now) out.old out.new result }
{
    append(b"Q", &[Field::String(text)], out)
}

/// Appends a Parse message: the name of the statement, which may be empty, its text, and the OIDs of
/// the types of its first parameters; 0 leaves a type to the server. More than 65,535 types are
/// refused with `Transmit`.
pub fn parse(name: &str, text: &str, types: &[Oid], out: &mut BytesMut) -> Result<(), Fault>
    ensures { Sends (parse name.now text.now types.now) out.old out.new result }
{
    append(
        b"P",
        &[Field::String(name), Field::String(text), Field::Oids(types)],
        out,
    )
}

/// Appends a Describe message of the prepared statement with this name.
pub fn describe_statement(name: &str, out: &mut BytesMut) -> Result<(), Fault>
    ensures { Sends (describe 83 name.now) out.old out.new result }
{
    append(b"D", &[Field::Byte(b'S'), Field::String(name)], out)
}

/// Appends a Describe message of the portal with this name.
pub fn describe_portal(name: &str, out: &mut BytesMut) -> Result<(), Fault>
    ensures { Sends (describe 80 name.now) out.old out.new result }
{
    append(b"D", &[Field::Byte(b'P'), Field::String(name)], out)
}

/// Appends a Close message of the prepared statement with this name.
pub fn close_statement(name: &str, out: &mut BytesMut) -> Result<(), Fault>
    ensures { Sends (close 83 name.now) out.old out.new result }
{
    append(b"C", &[Field::Byte(b'S'), Field::String(name)], out)
}

/// Appends a Close message of the portal with this name.
pub fn close_portal(name: &str, out: &mut BytesMut) -> Result<(), Fault>
    ensures { Sends (close 80 name.now) out.old out.new result }
{
    append(b"C", &[Field::Byte(b'P'), Field::String(name)], out)
}

/// Appends an Execute message: the name of the portal, and the greatest number of rows to return; 0 is
/// no limit.
pub fn execute(portal: &str, max_rows: i32, out: &mut BytesMut) -> Result<(), Fault>
    ensures { Sends (execute portal.now max_rows) out.old out.new result }
{
    append(b"E", &[Field::String(portal), Field::Int4(max_rows)], out)
}

/// Appends a Sync message.
pub fn sync(out: &mut BytesMut) -> Result<(), Fault>
    ensures { Sends (empty 83) out.old out.new result }
{
    append(b"S", &[], out)
}

/// Appends a Flush message.
pub fn flush(out: &mut BytesMut) -> Result<(), Fault>
    ensures { Sends (empty 72) out.old out.new result }
{
    append(b"H", &[], out)
}

/// Appends a CopyData message: any part of the bytes of a COPY.
pub fn copy_data(bytes: &[u8], out: &mut BytesMut) -> Result<(), Fault>
    ensures { Sends (copy_data bytes.now) out.old out.new result }
{
    append(b"d", &[Field::Bytes(bytes)], out)
}

/// Appends a CopyDone message.
pub fn copy_done(out: &mut BytesMut) -> Result<(), Fault>
    ensures { Sends (empty 99) out.old out.new result }
{
    append(b"c", &[], out)
}

/// Appends a CopyFail message: why the COPY failed.
pub fn copy_fail(reason: &str, out: &mut BytesMut) -> Result<(), Fault>
    ensures { Sends (copy_fail reason.now) out.old out.new result }
{
    append(b"f", &[Field::String(reason)], out)
}

/// Appends a Terminate message, the last of a connection.
pub fn terminate(out: &mut BytesMut) -> Result<(), Fault>
    ensures { Sends (empty 88) out.old out.new result }
{
    append(b"X", &[], out)
}

/// Appends a Bind message up to the parameters: the names of the portal and of the prepared
/// statement. Returns the offset of the message. `pg_client::Bind` appends the rest, and then
/// [`end`] sets the length.
pub fn begin_bind(portal: &str, statement: &str, out: &mut BytesMut) -> Result<usize, Fault>
    ensures { Begins (begun_bind portal.now statement.now) out.old out.new result }
{
    let at = out.len();
    append(
        b"B",
        &[Field::String(portal), Field::String(statement)],
        out,
    )?;
    Ok(at)
}

/// Appends a CopyData message without data, and returns the offset of the message. The caller
/// appends the data, and then [`end`] sets the length.
pub fn begin_copy_data(out: &mut BytesMut) -> Result<usize, Fault>
    ensures { Begins (copy_data []) out.old out.new result }
{
    let at = out.len();
    append(b"d", &[], out)?;
    Ok(at)
}

/// Sets the length of the message at this offset, which [`begin_bind`] or [`begin_copy_data`]
/// returned, so that it ends with the buffer. A length that does not fit is refused with `Transmit`,
/// and an offset at which no message can be with `User`, with the text `no message at the offset`.
/// An error leaves the buffer as it was.
pub fn end(at: usize, out: &mut BytesMut) -> Result<(), Fault>
    ensures { Ends at out.old out.new result }
{
    let len = match out.len().checked_sub(at) {
        Some(len) if len >= 5 => len - 1,
        _ => return Err(Fault::user("no message at the offset")),
    };
    if len > MAX_LEN {
        return Err(Fault::Transmit);
    }
    set_number(at + 1, len as u32, out);
    Ok(())
}
