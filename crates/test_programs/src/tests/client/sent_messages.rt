//! The messages that a client sends: their bytes, by PostgreSQL's chapter on message formats.

use pg_messages::frontend::{
    begin_bind, begin_copy_data, cancel_request, close_portal, close_statement, copy_data,
    copy_done, copy_fail, describe_portal, describe_statement, end, execute, flush, gssenc_request,
    parse, password_message, query, sasl_initial_response, sasl_response, ssl_request,
    startup_message, sync, terminate,
};
use postgres_types::{BytesMut, Fault};
use std::test::Fail;
use test_support::same;

/// Messages, in the order in which `send` has them.
const MESSAGES: [&[u8]; 20] = [
    b"\0\0\0\x1d\0\x03\0\0user\0me\0database\0db\0\0",
    b"\0\0\0\x08\x04\xd2\x16\x2f",
    b"\0\0\0\x08\x04\xd2\x16\x30",
    b"\0\0\0\x10\x04\xd2\x16\x2e\xff\xff\xff\xfe\x01\x02\x03\x04",
    b"p\0\0\0\x07pw\0",
    b"p\0\0\0\x19SCRAM-SHA-256\0\0\0\0\x03n,,",
    b"p\0\0\0\x0ac=biws",
    b"Q\0\0\0\x0dSELECT 1\0",
    b"P\0\0\0\x1as\0SELECT $1\0\0\x02\0\0\0\x17\0\0\0\0",
    b"D\0\0\0\x07Ss\0",
    b"D\0\0\0\x06P\0",
    b"E\0\0\0\x0ap\0\0\0\0\x64",
    b"C\0\0\0\x07Ss\0",
    b"C\0\0\0\x07Pp\0",
    b"S\0\0\0\x04",
    b"H\0\0\0\x04",
    b"d\0\0\0\x0aPGCOPY",
    b"c\0\0\0\x04",
    b"f\0\0\0\x07no\0",
    b"X\0\0\0\x04",
];

/// Appends the message at this index.
fn send(place: usize, out: &mut BytesMut) -> Result<(), Fault> {
    match place {
        0 => startup_message(&[("user", "me"), ("database", "db")], out),
        1 => ssl_request(out),
        2 => gssenc_request(out),
        3 => cancel_request(-2, b"\x01\x02\x03\x04", out),
        4 => password_message("pw", out),
        5 => sasl_initial_response("SCRAM-SHA-256", b"n,,", out),
        6 => sasl_response(b"c=biws", out),
        7 => query("SELECT 1", out),
        8 => parse("s", "SELECT $1", &[23, 0], out),
        9 => describe_statement("s", out),
        10 => describe_portal("", out),
        11 => execute("p", 100, out),
        12 => close_statement("s", out),
        13 => close_portal("p", out),
        14 => sync(out),
        15 => flush(out),
        16 => copy_data(b"PGCOPY", out),
        17 => copy_done(out),
        18 => copy_fail("no", out),
        _ => terminate(out),
    }
}

#[test]
fn messages_are_sent(rt: HostRuntime) -> Result<(), Fail> {
    let mut out = BytesMut::new(rt.alloc());
    for (place, bytes) in MESSAGES.iter().enumerate() {
        out.clear();
        send(place, &mut out)?;
        same(out.as_slice(), *bytes)?;
    }
    Ok(())
}

#[test]
fn messages_are_begun_and_ended(rt: HostRuntime) -> Result<(), Fail> {
    let mut out = BytesMut::new(rt.alloc());
    let at = begin_bind("", "s", &mut out)?;
    out.extend_from_slice(b"\0\0\0\0\0\0")?;
    end(at, &mut out)?;
    let at = begin_copy_data(&mut out)?;
    end(at, &mut out)?;
    let bytes = b"B\0\0\0\x0d\0s\0\0\0\0\0\0\0d\0\0\0\x04";
    same(out.as_slice(), bytes.as_slice())
}
