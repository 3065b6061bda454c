//! The kinds of messages that a server sends, and their fields.
ghost use Rattle.std.specs.Prelude.{◌≡◌, ◌∷◌, [], MatchOption, None, Some, option_map};
ghost use Rattle.pg_messages.specs.Backend.{Reads, Says, byte_field, content, count_field, fields_of, formats_values};
ghost use Rattle.pg_messages.specs.Backend.{rest_field, string_field};

use crate::authentication::Authentication;
use crate::backend::MessageFault;
use crate::split::{split_byte, split_count, split_int4, split_string};

/// A message of a server, with the names of PostgreSQL's documentation. Lists are the bytes of their
/// items, which calls of [`split`](crate::split), [`split_column`](crate::column::split_column) and
/// [`notice_field`](crate::notice::notice_field) read one by one.
#[derive(Debug, Clone, Copy)]
pub enum Message<'a> {
    /// A request for authentication, or its success.
    Authentication(Authentication<'a>),
    /// The process of the server, and the key, by which a query can be cancelled.
    BackendKeyData {
        process: i32,
        key: &'a [u8],
    },
    /// A Bind message was carried out.
    BindComplete,
    /// A Close message was carried out.
    CloseComplete,
    /// The tag of a command that ended, such as `INSERT 0 1`.
    CommandComplete(&'a str),
    /// A COPY in both directions begins, as in streaming replication.
    CopyBothResponse(CopyFormats<'a>),
    /// A part of the bytes of a COPY.
    CopyData(&'a [u8]),
    /// No more bytes of the COPY follow.
    CopyDone,
    /// A COPY from the client begins.
    CopyInResponse(CopyFormats<'a>),
    /// A COPY to the client begins.
    CopyOutResponse(CopyFormats<'a>),
    /// A row, as `pg_client` reads it: the number of columns, and the frames of their cells.
    DataRow(&'a [u8]),
    /// The query was empty.
    EmptyQueryResponse,
    /// An error: its fields.
    ErrorResponse(&'a [u8]),
    /// The frame of the cell that a function returned.
    FunctionCallResponse(&'a [u8]),
    /// The server does not know the minor version of the protocol, or some options: the newest that
    /// it knows, the number of the options, and their names.
    NegotiateProtocolVersion {
        newest: i32,
        count: i32,
        options: &'a [u8],
    },
    /// The statement or portal returns no rows.
    NoData,
    /// A notice: its fields.
    NoticeResponse(&'a [u8]),
    /// A notification: the process that sent it, the channel and the payload.
    NotificationResponse {
        process: i32,
        channel: &'a str,
        payload: &'a str,
    },
    /// The number of the parameters of a statement, and the OIDs of their types.
    ParameterDescription {
        count: u16,
        oids: &'a [u8],
    },
    /// The name of a parameter of the server, and its value.
    ParameterStatus {
        name: &'a str,
        value: &'a str,
    },
    /// A Parse message was carried out.
    ParseComplete,
    /// The greatest number of rows of an Execute message was reached.
    PortalSuspended,
    /// The server awaits a query. The status is `I` outside of a transaction, `T` in one, and `E` in
    /// one that failed.
    ReadyForQuery(u8),
    /// The number of columns of the rows to come, and their descriptions.
    RowDescription {
        count: u16,
        columns: &'a [u8],
    },
}

/// The formats of a COPY.
#[derive(Debug, Clone, Copy)]
pub struct CopyFormats<'a> {
    /// 0 if the COPY is in the text format, 1 if it is binary.
    pub format: u8,
    /// The number of columns.
    pub count: u16,
    /// The format of each column, in 2 bytes.
    pub formats: &'a [u8],
}

impl<'a> Message<'a> {
    /// Reads the body of the message with this tag. A tag of no kind is refused with `Kind`, and a
    /// body that is not of the kind's format with `Body`.
    pub fn parse(tag: u8, body: &'a [u8]) -> Result<Message<'a>, MessageFault>
        ensures { Reads tag body.now result }
    {
        let message = match tag {
            b'1' => bare(body, Message::ParseComplete),
            b'2' => bare(body, Message::BindComplete),
            b'3' => bare(body, Message::CloseComplete),
            b'A' => notification(body),
            b'C' => command_complete(body),
            b'D' => Some(Message::DataRow(body)),
            b'E' => Some(Message::ErrorResponse(body)),
            b'G' => copy_in_response(body),
            b'H' => copy_out_response(body),
            b'I' => bare(body, Message::EmptyQueryResponse),
            b'K' => backend_key_data(body),
            b'N' => Some(Message::NoticeResponse(body)),
            b'R' => authentication(body),
            b'S' => parameter_status(body),
            b'T' => row_description(body),
            b'V' => Some(Message::FunctionCallResponse(body)),
            b'W' => copy_both_response(body),
            b'Z' => ready_for_query(body),
            b'c' => bare(body, Message::CopyDone),
            b'd' => Some(Message::CopyData(body)),
            b'n' => bare(body, Message::NoData),
            b's' => bare(body, Message::PortalSuspended),
            b't' => parameter_description(body),
            b'v' => negotiate_protocol_version(body),
            _ => return Err(MessageFault::Kind(tag)),
        };
        message.ok_or(MessageFault::Body(tag))
    }
}

/// Returns the value, if there are no bytes.
pub(crate) fn bare<T: Copy>(bytes: &[u8], value: T) -> Option<T>
    ensures { MatchOption result (fields_of [] bytes.now ≡ None)
        (λ v. (v ≡ value) × (fields_of [] bytes.now ≡ Some [])) }
{
    if bytes.is_empty() { Some(value) } else { None }
}

/// Reads NotificationResponse.
fn notification(body: &[u8]) -> Option<Message<'_>>
    ensures { Says 65 body.now result }
{
    let (process, rest) = split_int4(body)?;
    let (channel, rest) = split_string(rest)?;
    let payload = last_string(rest)?;
    Some(Message::NotificationResponse {
        process,
        channel,
        payload,
    })
}

/// Reads CommandComplete.
fn command_complete(body: &[u8]) -> Option<Message<'_>>
    ensures { Says 67 body.now result }
{
    Some(Message::CommandComplete(last_string(body)?))
}

/// Reads the formats of a COPY.
fn copy_formats(body: &[u8]) -> Option<CopyFormats<'_>>
    ensures { option_map formats_values result ≡ fields_of (byte_field ∷ count_field ∷ rest_field ∷ []) body.now }
{
    let (format, rest) = split_byte(body)?;
    let (count, formats) = split_count(rest)?;
    Some(CopyFormats {
        format,
        count,
        formats,
    })
}

/// Reads CopyInResponse.
fn copy_in_response(body: &[u8]) -> Option<Message<'_>>
    ensures { Says 71 body.now result }
{
    Some(Message::CopyInResponse(copy_formats(body)?))
}

/// Reads CopyOutResponse.
fn copy_out_response(body: &[u8]) -> Option<Message<'_>>
    ensures { Says 72 body.now result }
{
    Some(Message::CopyOutResponse(copy_formats(body)?))
}

/// Reads CopyBothResponse.
fn copy_both_response(body: &[u8]) -> Option<Message<'_>>
    ensures { Says 87 body.now result }
{
    Some(Message::CopyBothResponse(copy_formats(body)?))
}

/// Reads BackendKeyData.
fn backend_key_data(body: &[u8]) -> Option<Message<'_>>
    ensures { Says 75 body.now result }
{
    let (process, key) = split_int4(body)?;
    Some(Message::BackendKeyData { process, key })
}

/// Reads a message of authentication.
fn authentication(body: &[u8]) -> Option<Message<'_>>
    ensures { Says 82 body.now result }
{
    let (code, parameters) = split_int4(body)?;
    let request = Authentication::parse(code, parameters)?;
    Some(Message::Authentication(request))
}

/// Reads ParameterStatus.
fn parameter_status(body: &[u8]) -> Option<Message<'_>>
    ensures { Says 83 body.now result }
{
    let (name, rest) = split_string(body)?;
    let value = last_string(rest)?;
    Some(Message::ParameterStatus { name, value })
}

/// Reads RowDescription.
fn row_description(body: &[u8]) -> Option<Message<'_>>
    ensures { Says 84 body.now result }
{
    let (count, columns) = split_count(body)?;
    Some(Message::RowDescription { count, columns })
}

/// Reads ReadyForQuery.
fn ready_for_query(body: &[u8]) -> Option<Message<'_>>
    ensures { Says 90 body.now result }
{
    match body {
        [status] => Some(Message::ReadyForQuery(*status)),
        _ => None,
    }
}

/// Reads ParameterDescription.
fn parameter_description(body: &[u8]) -> Option<Message<'_>>
    ensures { Says 116 body.now result }
{
    let (count, oids) = split_count(body)?;
    Some(Message::ParameterDescription { count, oids })
}

/// Reads NegotiateProtocolVersion.
fn negotiate_protocol_version(body: &[u8]) -> Option<Message<'_>>
    ensures { Says 118 body.now result }
{
    let (newest, rest) = split_int4(body)?;
    let (count, options) = split_int4(rest)?;
    Some(Message::NegotiateProtocolVersion {
        newest,
        count,
        options,
    })
}

/// Returns the text, if it ends with the only zero byte, which is the last.
fn last_string(bytes: &[u8]) -> Option<&str>
    ensures { option_map (λ text. content text.now ∷ []) result ≡ fields_of (string_field ∷ []) bytes.now }
{
    let (text, rest) = split_string(bytes)?;
    if rest.is_empty() { Some(text) } else { None }
}
