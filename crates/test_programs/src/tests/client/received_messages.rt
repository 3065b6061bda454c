//! The messages that a server sends, and the lists in their bodies.

use pg_messages::backend::{take_front, take_message};
use pg_messages::column::split_column;
use pg_messages::command::row_count;
use pg_messages::message::Message;
use pg_messages::notice::notice_field;
use std::test::Fail;
use test_support::{debugs, same};

/// Of each kind a body, and of each request for authentication, and the text of `Debug` of what it
/// says.
const BODIES: [(u8, &[u8], &str); 34] = [
    (b'1', b"", "ParseComplete"),
    (b'2', b"", "BindComplete"),
    (b'3', b"", "CloseComplete"),
    (
        b'A',
        b"\0\0\0\x07news\0hello\0",
        "NotificationResponse { process: 7, channel: \"news\", payload: \"hello\" }",
    ),
    (b'C', b"INSERT 0 1\0", "CommandComplete(\"INSERT 0 1\")"),
    (
        b'D',
        b"\0\x01\xff\xff\xff\xff",
        "DataRow([0, 1, 255, 255, 255, 255])",
    ),
    (
        b'E',
        b"SERROR\0\0",
        "ErrorResponse([83, 69, 82, 82, 79, 82, 0, 0])",
    ),
    (
        b'G',
        b"\x01\0\x01\0\x01",
        "CopyInResponse(CopyFormats { format: 1, count: 1, formats: [0, 1] })",
    ),
    (
        b'H',
        b"\0\0\0",
        "CopyOutResponse(CopyFormats { format: 0, count: 0, formats: [] })",
    ),
    (b'I', b"", "EmptyQueryResponse"),
    (
        b'K',
        b"\0\0\0\x02\xff\0\0\x01",
        "BackendKeyData { process: 2, key: [255, 0, 0, 1] }",
    ),
    (b'N', b"\0", "NoticeResponse([0])"),
    (b'R', b"\0\0\0\0", "Authentication(Ok)"),
    (b'R', b"\0\0\0\x02", "Authentication(KerberosV5)"),
    (b'R', b"\0\0\0\x03", "Authentication(CleartextPassword)"),
    (
        b'R',
        b"\0\0\0\x05salt",
        "Authentication(Md5Password { salt: [115, 97, 108, 116] })",
    ),
    (b'R', b"\0\0\0\x07", "Authentication(Gss)"),
    (b'R', b"\0\0\0\x08\x01", "Authentication(GssContinue([1]))"),
    (b'R', b"\0\0\0\x09", "Authentication(Sspi)"),
    (
        b'R',
        b"\0\0\0\x0aPLAIN\0\0",
        "Authentication(Sasl([80, 76, 65, 73, 78, 0, 0]))",
    ),
    (b'R', b"\0\0\0\x0b", "Authentication(SaslContinue([]))"),
    (
        b'R',
        b"\0\0\0\x0cv=",
        "Authentication(SaslFinal([118, 61]))",
    ),
    (
        b'R',
        b"\xff\xff\xff\xff\0",
        "Authentication(Other { code: -1, parameters: [0] })",
    ),
    (
        b'S',
        b"TimeZone\0UTC\0",
        "ParameterStatus { name: \"TimeZone\", value: \"UTC\" }",
    ),
    (b'T', b"\0\0", "RowDescription { count: 0, columns: [] }"),
    (
        b'V',
        b"\xff\xff\xff\xff",
        "FunctionCallResponse([255, 255, 255, 255])",
    ),
    (
        b'W',
        b"\x01\x01\x02",
        "CopyBothResponse(CopyFormats { format: 1, count: 258, formats: [] })",
    ),
    (b'Z', b"I", "ReadyForQuery(73)"),
    (b'c', b"", "CopyDone"),
    (b'd', b"\x07", "CopyData([7])"),
    (b'n', b"", "NoData"),
    (b's', b"", "PortalSuspended"),
    (
        b't',
        b"\0\x01\0\0\0\x17",
        "ParameterDescription { count: 1, oids: [0, 0, 0, 23] }",
    ),
    (
        b'v',
        b"\0\x03\0\0\0\0\0\x01_pq_.x\0",
        "NegotiateProtocolVersion { newest: 196608, count: 1, options: [95, 112, 113, 95, 46, 120, 0] }",
    ),
];

#[test]
fn each_kind_is_read(rt: HostRuntime) -> Result<(), Fail> {
    for (tag, body, text) in BODIES {
        debugs(rt.alloc(), &Message::parse(tag, body)?, text)?;
    }
    Ok(())
}

/// Bytes of a server, and the texts of `Debug` of what is at their front: a message that is read,
/// and one that is not.
const FRONTS: [(&[u8], &str, &str); 2] = [
    (
        b"Z\0\0\0\x05TZ",
        "Message(ReadyForQuery(84))",
        "Message(90, [84])",
    ),
    (b"Z\0\0", "Part(2)", "Part(2)"),
];

#[test]
fn messages_are_taken(rt: HostRuntime) -> Result<(), Fail> {
    for (bytes, message, front) in FRONTS {
        let mut left = bytes;
        debugs(rt.alloc(), &take_message(&mut left, 9)?, message)?;
        let mut left = bytes;
        debugs(rt.alloc(), &take_front(&mut left, 9)?, front)?;
    }
    Ok(())
}

/// The column int4 `id` of table 16384.
const COLUMN: &[u8] = b"id\0\0\0\x40\0\0\x01\0\0\0\x17\0\x04\xff\xff\xff\xff\0\x01";

/// The fields of an error.
const ERROR: &[u8] = b"SERROR\0VERROR\0C42P01\0Mrelation \"x\" does not exist\0P15\0\0";

#[test]
fn columns_and_fields_are_read(rt: HostRuntime) -> Result<(), Fail> {
    let Some((id, _)) = split_column(COLUMN) else {
        return Err(Fail::from("no column"));
    };
    let text = "ColumnDescription { name: \"id\", table: 16384, number: 1, ty: 23, size: 4, \
        modifier: -1, format: 1 }";
    debugs(rt.alloc(), &id, text)?;
    same(notice_field(ERROR, b'C'), Some(b"42P01".as_slice()))
}

/// Tags of commands, and the numbers of rows that they end with.
const TAGS: [(&str, Option<u64>); 5] = [
    ("SELECT 5", Some(5)),
    ("INSERT 0 1", Some(1)),
    ("COPY 1000000", Some(1_000_000)),
    ("MOVE 18446744073709551615", Some(u64::MAX)),
    ("CREATE TABLE", None),
];

#[test]
fn tags_have_numbers_of_rows(_rt: HostRuntime) -> Result<(), Fail> {
    for (tag, count) in TAGS {
        same(row_count(tag), count)?;
    }
    Ok(())
}
