//! The fields of messages, and messages of a tag, a length and fields.
ghost use Rattle.std.specs.Prelude.{◌≤◌, length, map};
ghost use Rattle.pg_messages.specs.Fields.{Extends, HasRoomFor, Measures, Sends, body, field_form, message};
ghost use Rattle.pg_messages.specs.Fields.{name_form, oid_form, pair_form, string, sum};

use bytes::BytesMut;
use pg_base::protocol::MAX_LEN;
use pg_types::fault::Fault;
use pg_types::types::Oid;

/// The greatest number of types of a Parse message.
const MAX_COUNT: usize = 65_535;

/// A field of a message ("Message Data Types"). Numbers are big-endian.
#[derive(Debug, Clone, Copy)]
pub enum Field<'a> {
    /// A byte.
    Byte(u8),
    /// An integer in 4 bytes.
    Int4(i32),
    /// A text and the zero byte that ends it.
    String(&'a str),
    /// Bytes.
    Bytes(&'a [u8]),
    /// The number of bytes in 4 bytes, and the bytes.
    Sized(&'a [u8]),
    /// The number of OIDs in 2 bytes, and each in 4 bytes.
    Oids(&'a [Oid]),
    /// Two strings for each pair.
    Pairs(&'a [(&'a str, &'a str)]),
}

/// Appends the message: its tag, if it has one, its length in 4 bytes, which counts itself, and its
/// fields.
pub fn append(tag: &[u8], fields: &[Field<'_>], out: &mut BytesMut) -> Result<(), Fault>
    requires { length tag.now ≤ 1 }
    ensures { Sends (message tag.now (map field_form fields.now)) out.old out.new result }
{
    let len = body_len(fields)?;
    if len > MAX_LEN - 4 {
        return Err(Fault::Transmit);
    }
    out.reserve(tag.len() + 4 + len)?;
    out.extend_reserved(tag);
    out.extend_reserved(&((4 + len) as i32).to_be_bytes());
    extend_by_fields(fields, out);
    Ok(())
}

/// Returns the length of the fields, at most `usize::MAX`.
fn body_len(fields: &[Field<'_>]) -> Result<usize, Fault>
    ensures { Measures (body fields.now) result }
{
    let mut len: usize = 0;
    for field in fields {
        len = len.saturating_add(field_len(*field)?);
    }
    Ok(len)
}

/// Returns the length of the field, at most `usize::MAX`.
fn field_len(field: Field<'_>) -> Result<usize, Fault>
    ensures { Measures (field_form field.entry) result }
{
    match field {
        Field::Byte(_) => Ok(1),
        Field::Int4(_) => Ok(4),
        Field::String(text) => string_len(text),
        Field::Bytes(bytes) => Ok(bytes.len()),
        Field::Sized(bytes) => {
            if bytes.len() > MAX_LEN {
                return Err(Fault::Transmit);
            }
            Ok(4 + bytes.len())
        }
        Field::Oids(oids) => {
            if oids.len() > MAX_COUNT {
                return Err(Fault::Transmit);
            }
            Ok(2 + 4 * oids.len())
        }
        Field::Pairs(pairs) => pairs_len(pairs),
    }
}

/// Returns the length of the text and of the zero byte that ends it. A text with a zero byte is
/// refused.
fn string_len(text: &str) -> Result<usize, Fault>
    ensures { Measures (string text.now) result }
{
    if text.as_bytes().contains(&0) {
        return Err(Fault::user("zero byte in a text"));
    }
    Ok(text.len().saturating_add(1))
}

/// Returns the length of the name of a parameter as a string. An empty name is refused, since an
/// empty string would end the list of the parameters.
fn name_len(name: &str) -> Result<usize, Fault>
    ensures { Measures (name_form name.now) result }
{
    if name.is_empty() {
        return Err(Fault::user("empty name of a parameter"));
    }
    string_len(name)
}

/// Returns the length of the strings of the pairs, at most `usize::MAX`.
fn pairs_len(pairs: &[(&str, &str)]) -> Result<usize, Fault>
    ensures { Measures (sum (map pair_form pairs.now)) result }
{
    let mut len: usize = 0;
    for (name, value) in pairs {
        let pair = name_len(name)?.saturating_add(string_len(value)?);
        len = len.saturating_add(pair);
    }
    Ok(len)
}

/// Appends the fields, which must have a form. There must be room for them.
fn extend_by_fields(fields: &[Field<'_>], out: &mut BytesMut)
    requires { HasRoomFor (body fields.now) out.old.spare }
    ensures { Extends (body fields.now) out.old out.new }
{
    for field in fields {
        extend_by_field(*field, out);
    }
}

/// Appends the field, which must have a form. There must be room for it.
fn extend_by_field(field: Field<'_>, out: &mut BytesMut)
    requires { HasRoomFor (field_form field) out.old.spare }
    ensures { Extends (field_form field.entry) out.old out.new }
{
    match field {
        Field::Byte(byte) => out.extend_reserved(&[byte]),
        Field::Int4(number) => out.extend_reserved(&number.to_be_bytes()),
        Field::String(text) => extend_by_string(text, out),
        Field::Bytes(bytes) => out.extend_reserved(bytes),
        Field::Sized(bytes) => {
            out.extend_reserved(&(bytes.len() as i32).to_be_bytes());
            out.extend_reserved(bytes);
        }
        Field::Oids(oids) => {
            out.extend_reserved(&(oids.len() as u16).to_be_bytes());
            extend_by_oids(oids, out);
        }
        Field::Pairs(pairs) => extend_by_pairs(pairs, out),
    }
}

/// Appends the text and the zero byte that ends it. There must be room for them.
fn extend_by_string(text: &str, out: &mut BytesMut)
    requires { HasRoomFor (string text.now) out.old.spare }
    ensures { Extends (string text.now) out.old out.new }
{
    out.extend_reserved(text.as_bytes());
    out.extend_reserved(&[0]);
}

/// Appends the OIDs. There must be room for them.
fn extend_by_oids(oids: &[Oid], out: &mut BytesMut)
    requires { HasRoomFor (sum (map oid_form oids.now)) out.old.spare }
    ensures { Extends (sum (map oid_form oids.now)) out.old out.new }
{
    for oid in oids {
        out.extend_reserved(&oid.to_be_bytes());
    }
}

/// Appends the strings of the pairs, which must have a form. There must be room for them.
fn extend_by_pairs(pairs: &[(&str, &str)], out: &mut BytesMut)
    requires { HasRoomFor (sum (map pair_form pairs.now)) out.old.spare }
    ensures { Extends (sum (map pair_form pairs.now)) out.old out.new }
{
    for (name, value) in pairs {
        extend_by_string(name, out);
        extend_by_string(value, out);
    }
}
