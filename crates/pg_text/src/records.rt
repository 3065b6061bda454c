//! The fields in the texts of composite values: in parentheses, with commas between them, and
//! nothing for NULL (`record_out`).
ghost use Rattle.std.specs.Prelude.{◌≡◌, ◌||◌, ◌==◌, ◌++◌, IfOk, OnOk, length};
ghost use Rattle.std.specs.List.{list_any};
ghost use Rattle.pg_text.specs.Items.{TakesItem, unless_null};
ghost use Rattle.pg_text.specs.Quotes.{field_text, is_record_sign};

use crate::items::Items;
use crate::no_value;
use crate::quotes::{Escape, is_escaped, is_space, push_quoted};
use postgres_types::Fault;
use std::alloc::AllocError;

/// Appends the text of a field. It is quoted if it is empty, or contains white space, a comma, a
/// parenthesis, a quote or a backslash.
pub fn push_field(text: &[u8], out: &mut Vec<u8>) -> Result<(), AllocError>
    ensures { OnOk result (out.new.items ≡ out.old.items ++ field_text text.now) }
{
    if needs_quotes(text) {
        push_quoted(text, Escape::Twice, out)
    } else {
        out.extend_from_slice(text)
    }
}

/// Whether the text has to be quoted as a field.
fn needs_quotes(text: &[u8]) -> bool
    ensures { result ≡ (length text.now == 0 || list_any is_record_sign text.now) }
{
    text.is_empty() || has_record_sign(text)
}

/// Whether the text contains a byte for which a field is quoted.
fn has_record_sign(text: &[u8]) -> bool
    ensures { result ≡ list_any is_record_sign text.now }
{
    text.iter().any(|byte| is_record_sign(*byte))
}

/// Whether a field that contains the byte is quoted.
fn is_record_sign(byte: u8) -> bool
    ensures { result ≡ is_record_sign byte }
{
    is_escaped(byte) || byte == b'(' || byte == b')' || byte == b',' || is_space(byte)
}

/// Takes the field at the front of `rest`, sets `field` to its text, and returns whether it is
/// NULL. A comma must follow it if `has_next` is true, and nothing otherwise. If there is no such
/// field it fails with `User`.
pub fn take_field(rest: &mut &[u8], has_next: bool, field: &mut Vec<u8>) -> Result<bool, Fault>
    ensures { IfOk result (λ is_null. TakesItem Items.OfRecord rest.old.now rest.new.now has_next
        (unless_null is_null field.new.items)) }
{
    match Items::OfRecord.next(rest, field)? {
        Some(item) if item.has_comma == has_next => Ok(item.is_null),
        _ => Err(no_value()),
    }
}
