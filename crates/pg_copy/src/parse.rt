//! The cell for a text, by the type of its column.
ghost use Rattle.std.specs.Prelude.{◌≡◌, ◌++◌, IfOk, OnErr, OnOk, Some, map};
ghost use Rattle.pg_copy.specs.Outputs.{Gains};
ghost use Rattle.pg_copy.specs.Values.{documents, in_form, text_arrays_of, text_values, texts, texts_with_arrays};
ghost use Rattle.pg_copy.specs.Values.{values_of};
ghost use Rattle.pg_copy.specs.WrittenCells.{FrameAs, NeverNull, text_of};
ghost use Rattle.pg_copy.specs.WrittenComposites.{FieldOf, RecordOf, SaysRecord, composite_texts, record_of};
ghost use Rattle.pg_copy.specs.WrittenRows.{FrameOf};
ghost use Rattle.pg_text.specs.Lists.{SaysArray};
ghost use Rattle.postgres_types.specs.Content.{Content, content};

use crate::columns::{Column, Field};
use crate::types::{Base, base_types};
use pg_text::arrays::parse_array;
use pg_text::items::{between, said};
use pg_text::{FromText, no_value, records};
use postgres_types::composite::field_count_to_sql;
use postgres_types::private::BytesMut;
use postgres_types::{Fault, JsonText, ToSql, Type, frame_value};
use std::alloc::Global;

/// The frame of NULL: the length -1.
const NULL: &[u8; 4] = b"\xff\xff\xff\xff";

/// A text, of which `None` is NULL.
pub type Text<'a> = Option<&'a str>;

// Writes a text by the row of its type.
macro_rules! push {
    (
        ($alloc:ident, $base:ident, $is_array:ident, $ty:ident, $text:ident, $out:ident)
        $($of:ident $names:tt $types:tt,)*
    ) => {
        match $base {
            $(Base::$of => push_row!(($alloc, $is_array, $ty, $text, $out) $types),)*
            Base::Composite => Err(no_value()),
        }
    };
}

// Writes a text as the Rust type of a row.
macro_rules! push_row {
    ($args:tt [String, $($types:tt)*]) => {
        push_text $args
    };
    ($args:tt [postgres_types::JsonText<String>, $($types:tt)*]) => {
        push_document $args
    };
    ($args:tt [$rust:ty, $($types:tt)*]) => {
        push_as::<$rust> $args
    };
}

/// Appends the frame of the cell of the value that the text stands for. A text that is not a value
/// of the column's type is refused with `User`; any other fault is that of writing. An error leaves
/// the buffer's bytes as they were.
// It is called for each value.
#[inline(always)]
pub fn push_frame(
    alloc: Global,
    column: &Column,
    text: Text<'_>,
    out: &mut BytesMut,
) -> Result<(), Fault>
    ensures ok { OnOk result (Gains (FrameOf column.now (text_of text.entry)) out.old.items out.new.items) }
    ensures err { OnErr result (out.new.items ≡ out.old.items) }
{
    if column.fields.is_empty() {
        push_value(alloc, &column.base, column.is_array, &column.ty, text, out)
    } else {
        push_composite(alloc, column, text, out)
    }
}

/// Appends the frame of a value that is not composite.
#[inline(always)]
fn push_value(
    alloc: Global,
    base: &Base,
    is_array: bool,
    ty: &Type,
    text: Text<'_>,
    out: &mut BytesMut,
) -> Result<(), Fault>
    ensures ok { OnOk result (Gains (FrameAs (in_form is_array (values_of base.now).1) (content ty.now)
        (text_of text.entry)) out.old.items out.new.items) }
    ensures err { OnErr result (out.new.items ≡ out.old.items) }
{
    match text {
        None => push_null(out),
        Some(text) => push_by_type(alloc, base, is_array, ty, text, out),
    }
}

/// Appends the frame of NULL.
fn push_null(out: &mut BytesMut) -> Result<(), Fault>
    ensures ok { OnOk result (out.new.items ≡ out.old.items ++ NULL.now) }
    ensures err { OnErr result (out.new.items ≡ out.old.items) }
{
    Ok(out.extend_from_slice(NULL)?)
}

/// Appends the frame of a value that is neither composite nor NULL.
#[tactic(auto, using(crate::proofs::Wires::never_null))]
fn push_by_type(
    alloc: Global,
    base: &Base,
    is_array: bool,
    ty: &Type,
    text: &str,
    out: &mut BytesMut,
) -> Result<(), Fault>
    ensures ok { OnOk result (Gains (FrameAs (in_form is_array (values_of base.now).1) (content ty.now)
        (Some text.now)) out.old.items out.new.items) }
    ensures err { OnErr result (out.new.items ≡ out.old.items) }
{
    base_types!(push(alloc, base, is_array, ty, text, out))
}

/// Appends the frame of a text, without copying it, or of an array of texts.
#[tactic(auto, using(crate::proofs::Wires::never_null))]
fn push_text(
    alloc: Global,
    is_array: bool,
    ty: &Type,
    text: &str,
    out: &mut BytesMut,
) -> Result<(), Fault>
    ensures ok { OnOk result (Gains (FrameAs (in_form is_array texts.1) (content ty.now) (Some text.now))
        out.old.items out.new.items) }
    ensures err { OnErr result (out.new.items ≡ out.old.items) }
{
    if is_array {
        return push_array_as::<String>(alloc, ty, text, out);
    }
    frame_value(alloc, &text, ty, out)
}

/// Appends the frame of a JSON document, without copying its text, or of an array of documents.
#[tactic(auto, using(crate::proofs::Wires::never_null))]
fn push_document(
    alloc: Global,
    is_array: bool,
    ty: &Type,
    text: &str,
    out: &mut BytesMut,
) -> Result<(), Fault>
    ensures ok { OnOk result (Gains (FrameAs (in_form is_array documents.1) (content ty.now) (Some text.now))
        out.old.items out.new.items) }
    ensures err { OnErr result (out.new.items ≡ out.old.items) }
{
    if is_array {
        return push_array_as::<JsonText<String>>(alloc, ty, text, out);
    }
    frame_value(alloc, &JsonText(text), ty, out)
}

/// Appends the frame of a `T`, or of an array of them.
fn push_as<T: FromText + ToSql>(
    alloc: Global,
    is_array: bool,
    ty: &Type,
    text: &str,
    out: &mut BytesMut,
) -> Result<(), Fault>
    requires { (ty : Content) (value : T) → NeverNull (T.wire ty value) }
    ensures ok { OnOk result (Gains (FrameAs (in_form is_array
        (text_values T.says T.wire, text_arrays_of (text_values T.says T.wire)))
        (content ty.now) (Some text.now)) out.old.items out.new.items) }
    ensures err { OnErr result (out.new.items ≡ out.old.items) }
{
    if is_array {
        return push_array_as::<T>(alloc, ty, text, out);
    }
    frame_value(alloc, &T::from_text(alloc, text)?, ty, out)
}

/// Appends the frame of an array of `T`s.
fn push_array_as<T: FromText + ToSql>(
    alloc: Global,
    ty: &Type,
    text: &str,
    out: &mut BytesMut,
) -> Result<(), Fault>
    ensures ok { OnOk result (Gains (FrameAs (text_arrays_of (text_values T.says T.wire)) (content ty.now)
        (Some text.now)) out.old.items out.new.items) }
    ensures err { OnErr result (out.new.items ≡ out.old.items) }
{
    let elements: Vec<Option<T>> = parse_array(alloc, text)?;
    frame_value(alloc, &elements, ty, out)
}

/// Appends the frame of a composite value, or of an array of them. The element type is
/// user-defined, so its OID is unknown, and that of BYTEA is written instead: from version 14 on,
/// servers do not check it (`array_recv`).
// It is kept out of the loop over the values of other types.
#[inline(never)]
fn push_composite(
    alloc: Global,
    column: &Column,
    text: Text<'_>,
    out: &mut BytesMut,
) -> Result<(), Fault>
    ensures ok { OnOk result (Gains (FrameAs (in_form column.now.is_array (composite_texts column.now.fields.items))
        (content column.now.ty) (text_of text.entry)) out.old.items out.new.items) }
    ensures err { OnErr result (out.new.items ≡ out.old.items) }
{
    let Some(text) = text else {
        return frame_value(alloc, &None::<&[u8]>, &Type::BYTEA, out);
    };
    let fields = column.fields.as_slice();
    if column.is_array {
        let records = parse_records(alloc, fields, text)?;
        return frame_value(alloc, &records, &Type::BYTEA_ARRAY, out);
    }
    let mut cell = BytesMut::new(alloc);
    push_record(alloc, fields, text, &mut cell)?;
    frame_value(alloc, &cell.as_slice(), &Type::BYTEA, out)
}

/// Parses an array of composite values, and writes their records.
fn parse_records(alloc: Global, fields: &[Field], text: &str) -> Result<Vec<Option<Vec<u8>>>, Fault>
    ensures { IfOk result (λ v. SaysArray (RecordOf fields.now) text.now (map record_of v.items)) }
{
    let texts: Vec<Option<String>> = parse_array(alloc, text)?;
    let mut records = Vec::new(alloc);
    for text in &texts {
        records.push(parse_record(alloc, fields, text)?)?;
    }
    Ok(records)
}

/// Parses a composite value, and writes its record; NULL is `None`.
fn parse_record(
    alloc: Global,
    fields: &[Field],
    text: &Option<String>,
) -> Result<Option<Vec<u8>>, Fault>
    ensures { IfOk result (SaysRecord fields.now text.now) }
{
    match text {
        None => Ok(None),
        Some(text) => {
            let mut cell = BytesMut::new(alloc);
            push_record(alloc, fields, text.as_str(), &mut cell)?;
            Ok(Some(Vec::from_slice(alloc, cell.as_slice())?))
        }
    }
}

/// Parses a composite value, and appends its record, as `record_recv` reads it. An error leaves a
/// part of it.
fn push_record(alloc: Global, fields: &[Field], text: &str, out: &mut BytesMut) -> Result<(), Fault>
    ensures { OnOk result (Gains (RecordOf fields.now text.now) out.old.items out.new.items) }
{
    let Some(mut rest) = between(text.as_bytes(), b'(', b')') else {
        return Err(no_value());
    };
    let mut item = Vec::new(alloc);
    field_count_to_sql(alloc, fields.len(), out)?;
    for (place, field) in fields.iter().enumerate() {
        let is_null = records::take_field(&mut rest, place + 1 < fields.len(), &mut item)?;
        push_field(alloc, field, said(is_null, item.as_slice())?, out)?;
    }
    // A type without fields has no item.
    if rest.is_empty() {
        Ok(())
    } else {
        Err(no_value())
    }
}

/// Appends a field of a record: the OID of its type, and the frame of the cell for its text. An
/// error leaves a part of it.
fn push_field(alloc: Global, field: &Field, text: Text<'_>, out: &mut BytesMut) -> Result<(), Fault>
    ensures { OnOk result (Gains (FieldOf field.now (text_of text.entry)) out.old.items out.new.items) }
{
    out.extend_from_slice(&field.ty.oid().to_be_bytes())?;
    push_value(alloc, &field.base, field.is_array, &field.ty, text, out)
}
