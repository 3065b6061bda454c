//! The text of a cell, by the type of its column.
ghost use Rattle.std.specs.Prelude.{◌≡◌, ◌++◌, ◌∷◌, ◌↔◌, ℕ, List, [], IfErr, IfOk, IfSome, IsTrue, OnOk, Err, Ok, Some};
ghost use Rattle.std.specs.Prelude.{codes, drop, false, true};
ghost use Rattle.pg_base.specs.Cells.{Cell, SpellsAll, SpellsNone, cell_of};
ghost use Rattle.pg_copy.specs.CellRefusals.{CellFault, RefusesFront, accepted_in_form};
ghost use Rattle.pg_copy.specs.Composites.{ReadsBytesOfEach, ReadsElement, RefusesField, RefusesRecord, ShowsField};
ghost use Rattle.pg_copy.specs.Composites.{ShowsRecord, record_values, records_values, type_fault};
ghost use Rattle.pg_copy.specs.Lines.{values_in};
ghost use Rattle.pg_copy.specs.ReadingSteps.{TakesText};
ghost use Rattle.pg_copy.specs.Values.{HasOtherBound, arrays_of, documents, in_form, no_values, texts, values};
ghost use Rattle.pg_copy.specs.Values.{values_of, with_arrays};
ghost use Rattle.pg_copy.specs.declared.columns.Field.{Field};
ghost use Rattle.pg_text.specs.Lists.{ShowsArray, ShowsElement};
ghost use Rattle.pg_types.specs.Content.{Content, content};
ghost use Rattle.pg_types.specs.Faults.{refusal_of, size, user};
ghost use Rattle.postgres_types.specs.ArrayReading.{ReadsAll};
ghost use Rattle.postgres_types.specs.OptionReading.{ReadsOption};
ghost use Rattle.postgres_types.specs.Records.{PassesNumber};

use crate::columns::{Column, Field};
use crate::types::{Base, base_types};
use pg_text::arrays::{push_array, push_element};
use pg_text::separators::push_separator;
use pg_text::{ToText, records};
use postgres_types::composite::{read_end, read_field_count};
use postgres_types::private::{read_be_i32, read_value, take_cell};
use postgres_types::{Fault, FromSql, JsonText, Oid, Type, check_type};
use std::alloc::Global;

// Reads a cell by the row of its type.
macro_rules! take {
    (
        ($alloc:ident, $base:ident, $is_array:ident, $ty:ident, $row:ident, $own:ident)
        $($of:ident $names:tt $types:tt,)*
    ) => {
        // What a `match` gives is copied, and what is returned is not.
        match $base {
            $(Base::$of => return take_row!(($alloc, $is_array, $ty, $row, $own) $types),)*
            Base::Composite => return refuse_composite($is_array, $ty, $row),
        }
    };
}

// Reads a cell as the Rust type of a row, or as its borrowed form.
macro_rules! take_row {
    ($args:tt [String, $($types:tt)*]) => {
        take_str $args
    };
    ($args:tt [postgres_types::JsonText<String>, $($types:tt)*]) => {
        take_document $args
    };
    ($args:tt [Vec<u8>, $($types:tt)*]) => {
        take_as::<&[u8]> $args
    };
    ($args:tt [$rust:ty, $($types:tt)*]) => {
        take_as::<$rust> $args
    };
}

/// Takes the frame at the front of the row, and returns the text of the value that its cell is read
/// as, or `None` for NULL. A text that does not stand in the cell is written to `own`.
// It is called for each value.
#[inline(always)]
pub fn take_text<'a: 'b, 'b>(
    alloc: Global,
    column: &Column,
    row: &mut &'a [u8],
    own: &'b mut Vec<u8>,
) -> Result<Option<&'b [u8]>, Fault>
    ensures ok { IfOk result (λ text. TakesText (values_in column.now) (content column.now.ty)
        row.old.now (cell_of text) row.new.now) }
    ensures err { IfErr result (CellFault (values_in column.now) (content column.now.ty)
        row.old.now) }
{
    match column.fields.as_slice() {
        [] => take_value(alloc, column.base, column.is_array, &column.ty, row, own),
        fields if column.is_array => take_composites(alloc, fields, row, own),
        fields => take_composite(alloc, fields, row, own),
    }
}

/// Takes a value that is not composite, as [`take_text`] does.
fn take_value<'a: 'b, 'b>(
    alloc: Global,
    base: Base,
    is_array: bool,
    ty: &Type,
    row: &mut &'a [u8],
    own: &'b mut Vec<u8>,
) -> Result<Option<&'b [u8]>, Fault>
    ensures ok { IfOk result (λ text. TakesText (in_form is_array (values_of base).0) (content ty.now)
        row.old.now (cell_of text) row.new.now) }
    ensures err { IfErr result (CellFault (in_form is_array (values_of base).0) (content ty.now) row.old.now) }
{
    base_types!(take(alloc, base, is_array, ty, row, own))
}

/// Takes a text, which stands in its cell, or an array of texts.
fn take_str<'a: 'b, 'b>(
    alloc: Global,
    is_array: bool,
    ty: &Type,
    row: &mut &'a [u8],
    own: &'b mut Vec<u8>,
) -> Result<Option<&'b [u8]>, Fault>
    ensures ok { IfOk result (λ text. TakesText (in_form is_array texts.0) (content ty.now)
        row.old.now (cell_of text) row.new.now) }
    ensures err { IfErr result (CellFault (in_form is_array texts.0) (content ty.now) row.old.now) }
{
    if is_array {
        return take_array_as::<&str>(alloc, ty, row, own);
    }
    let is_accepted = <Option<&str> as FromSql<'a>>::accepts(ty);
    check_type(is_accepted, ty, "Option")?;
    match read_value::<Option<&str>>(alloc, ty, row)? {
        None => Ok(None),
        Some(text) => Ok(Some(text.as_bytes())),
    }
}

/// Takes a JSON document, whose text stands in its cell, or an array of documents.
fn take_document<'a: 'b, 'b>(
    alloc: Global,
    is_array: bool,
    ty: &Type,
    row: &mut &'a [u8],
    own: &'b mut Vec<u8>,
) -> Result<Option<&'b [u8]>, Fault>
    ensures ok { IfOk result (λ text. TakesText (in_form is_array documents.0) (content ty.now)
        row.old.now (cell_of text) row.new.now) }
    ensures err { IfErr result (CellFault (in_form is_array documents.0) (content ty.now) row.old.now) }
{
    if is_array {
        return take_array_as::<JsonText<&str>>(alloc, ty, row, own);
    }
    let is_accepted = <Option<JsonText<&str>> as FromSql<'a>>::accepts(ty);
    check_type(is_accepted, ty, "Option")?;
    match read_value::<Option<JsonText<&str>>>(alloc, ty, row)? {
        None => Ok(None),
        Some(JsonText(text)) => Ok(Some(text.as_bytes())),
    }
}

/// Takes a `T`, or an array of them.
fn take_as<'a: 'b, 'b, T: FromSql<'a> + ToText>(
    alloc: Global,
    is_array: bool,
    ty: &Type,
    row: &mut &'a [u8],
    own: &'b mut Vec<u8>,
) -> Result<Option<&'b [u8]>, Fault>
    ensures ok { IfOk result (λ text. TakesText (in_form is_array (with_arrays (values T.reads T.shows)))
        (content ty.now) row.old.now (cell_of text) row.new.now) }
    ensures err { IfErr result (CellFault (in_form is_array (with_arrays (values T.reads T.shows)))
        (content ty.now) row.old.now) }
    ensures accepted { IsTrue (accepted_in_form is_array T.accepted (content ty.now))
        → IfErr result (λ fault. IfSome (refusal_of fault) (RefusesFront
        (in_form is_array (with_arrays (values T.reads T.shows))) (content ty.now) row.old.now)) }
{
    if is_array {
        return take_array_as::<T>(alloc, ty, row, own);
    }
    let is_accepted = <Option<T> as FromSql<'a>>::accepts(ty);
    check_type(is_accepted, ty, "Option")?;
    match read_value::<Option<T>>(alloc, ty, row)? {
        None => Ok(None),
        Some(value) => {
            own.clear();
            value.to_text(alloc, own)?;
            Ok(Some(own.as_slice()))
        }
    }
}

/// Takes an array of `T`s.
fn take_array_as<'a: 'b, 'b, T: FromSql<'a> + ToText>(
    alloc: Global,
    ty: &Type,
    row: &mut &'a [u8],
    own: &'b mut Vec<u8>,
) -> Result<Option<&'b [u8]>, Fault>
    ensures ok { IfOk result (λ text. TakesText (arrays_of (values T.reads T.shows)) (content ty.now)
        row.old.now (cell_of text) row.new.now) }
    ensures err { IfErr result (CellFault (arrays_of (values T.reads T.shows)) (content ty.now) row.old.now) }
    ensures accepted { IsTrue (accepted_in_form true T.accepted (content ty.now))
        → IfErr result (λ fault. IfSome (refusal_of fault) (RefusesFront (arrays_of (values T.reads T.shows))
        (content ty.now) row.old.now)) }
{
    let is_accepted = <Option<Vec<Option<T>>> as FromSql<'a>>::accepts(ty);
    check_type(is_accepted, ty, "Option")?;
    let frame = *row;
    match read_value::<Option<Vec<Option<T>>>>(alloc, ty, row)? {
        None => Ok(None),
        Some(_) if has_other_lower_bound(frame) => Err(other_lower_bound()),
        Some(elements) => {
            own.clear();
            push_array(alloc, elements.as_slice(), own)?;
            Ok(Some(own.as_slice()))
        }
    }
}

/// Refuses a composite value in a field of a composite type; only NULL is read.
fn refuse_composite<'a>(
    is_array: bool,
    ty: &Type,
    row: &mut &'a [u8],
) -> Result<Option<&'a [u8]>, Fault>
    ensures ok { IfOk result (λ text. TakesText (in_form is_array no_values) (content ty.now)
        row.old.now (cell_of text) row.new.now) }
    ensures err { IfErr result (CellFault (in_form is_array no_values) (content ty.now) row.old.now) }
{
    match take_bytes(row)? {
        None => Ok(None),
        Some(_) => Err(Fault::user("composite type within a composite type")),
    }
}

/// Takes a composite value with these fields.
// It is kept out of the loop over the values of other types.
#[inline(never)]
fn take_composite<'b>(
    alloc: Global,
    fields: &[Field],
    row: &mut &[u8],
    own: &'b mut Vec<u8>,
) -> Result<Option<&'b [u8]>, Fault>
    ensures ok { (ty : Content) → IfOk result (λ text. TakesText (record_values fields.now) ty
        row.old.now (cell_of text) row.new.now) }
    ensures err { (ty : Content) → IfErr result (CellFault (record_values fields.now) ty row.old.now) }
{
    let Some(cell) = take_bytes(row)? else {
        return Ok(None);
    };
    own.clear();
    push_record(alloc, fields, cell, own)?;
    Ok(Some(own.as_slice()))
}

/// Takes an array of composite values with these fields, whose cell has the layout of an array of
/// BYTEA.
// It is kept out of that loop too.
#[inline(never)]
fn take_composites<'b>(
    alloc: Global,
    fields: &[Field],
    row: &mut &[u8],
    own: &'b mut Vec<u8>,
) -> Result<Option<&'b [u8]>, Fault>
    ensures ok { (ty : Content) → IfOk result (λ text. TakesText (records_values fields.now) ty
        row.old.now (cell_of text) row.new.now) }
    ensures err { (ty : Content) → IfErr result (CellFault (records_values fields.now) ty row.old.now) }
{
    let frame = *row;
    match take_records(alloc, row)? {
        None => Ok(None),
        Some(_) if has_other_lower_bound(frame) => Err(other_lower_bound()),
        Some(records) => {
            own.clear();
            push_records(alloc, fields, records.as_slice(), own)?;
            Ok(Some(own.as_slice()))
        }
    }
}

/// Takes the frame at the front of the row: the bytes of its cell, or NULL.
fn take_bytes<'a>(row: &mut &'a [u8]) -> Result<Option<&'a [u8]>, Fault>
    ensures ok { IfOk result (λ bytes. SpellsAll row.old.now (cell_of bytes ∷ []) row.new.now) }
    ensures err { IfErr result (λ fault. IfSome (refusal_of fault) (λ refusal.
        SpellsNone row.old.now × (refusal ≡ size))) }
{
    take_cell(row)
}

/// Takes the frame of an array at the front of the row: the bytes of each element.
fn take_records<'a>(
    alloc: Global,
    row: &mut &'a [u8],
) -> Result<Option<Vec<Option<&'a [u8]>>>, Fault>
    ensures ok { IfOk result (λ records. (cell : Cell) × SpellsAll row.old.now (cell ∷ []) row.new.now
        × ReadsOption ReadsBytesOfEach cell (Ok records)) }
    ensures err { (fields : List Field) (ty : Content) → IfErr result (CellFault (records_values fields) ty
        row.old.now) }
{
    read_value::<Option<Vec<Option<&[u8]>>>>(alloc, &Type::BYTEA_ARRAY, row)
}

/// Appends the texts of the records in braces, with commas between them, and NULL for NULL.
fn push_records(
    alloc: Global,
    fields: &[Field],
    records: &[Option<&[u8]>],
    text: &mut Vec<u8>,
) -> Result<(), Fault>
    ensures ok { OnOk result (ShowsArray (λ s. ShowsRecord fields.now s.now) records.now text.old.items
        text.new.items) }
    ensures err { IfErr result (λ fault. IfSome (refusal_of fault) (λ refusal.
        ReadsAll (ReadsElement fields.now) records.now (Err refusal))) }
{
    let mut own = Vec::new(alloc);
    text.push(b'{')?;
    for (place, record) in records.iter().enumerate() {
        push_separator(place, b',', text)?;
        push_item(alloc, fields, record, &mut own, text)?;
    }
    Ok(text.push(b'}')?)
}

/// Appends a record as an element, or NULL; its text is first written to `own`.
fn push_item(
    alloc: Global,
    fields: &[Field],
    raw: &Option<&[u8]>,
    own: &mut Vec<u8>,
    text: &mut Vec<u8>,
) -> Result<(), Fault>
    ensures ok { OnOk result ((item : List ℕ) × ShowsElement (λ s. ShowsRecord fields.now s.now) raw.now item
        × (text.new.items ≡ text.old.items ++ item)) }
    ensures err { IfErr result (λ fault. IfSome (refusal_of fault) (λ refusal.
        ReadsElement fields.now raw.now (Err refusal))) }
{
    match raw {
        None => Ok(text.extend_from_slice(b"NULL")?),
        Some(raw) => {
            own.clear();
            push_record(alloc, fields, raw, own)?;
            Ok(push_element(own.as_slice(), text)?)
        }
    }
}

/// Appends the text of a record: the texts of its fields in parentheses, with commas between them.
fn push_record(alloc: Global, fields: &[Field], raw: &[u8], text: &mut Vec<u8>) -> Result<(), Fault>
    ensures ok { OnOk result (ShowsRecord fields.now raw.now text.old.items text.new.items) }
    ensures err { IfErr result (λ fault. IfSome (refusal_of fault) (RefusesRecord fields.now raw.now)) }
{
    let mut rest = raw;
    read_field_count(fields.len(), &mut rest)?;
    let mut own = Vec::new(alloc);
    text.push(b'(')?;
    for (place, field) in fields.iter().enumerate() {
        push_separator(place, b',', text)?;
        push_field(alloc, field, &mut rest, &mut own, text)?;
    }
    read_end(rest)?;
    Ok(text.push(b')')?)
}

/// Takes a field from the front of the record, and appends its text, or nothing for NULL. A text
/// that does not stand in the cell is first written to `own`.
fn push_field(
    alloc: Global,
    field: &Field,
    raw: &mut &[u8],
    own: &mut Vec<u8>,
    text: &mut Vec<u8>,
) -> Result<(), Fault>
    ensures ok { OnOk result ((part : List ℕ × List ℕ) × ShowsField field.now part
        × (raw.old.now ≡ part.0 ++ raw.new.now) × (text.new.items ≡ text.old.items ++ part.1)) }
    ensures err { IfErr result (λ fault. IfSome (refusal_of fault) (RefusesField field.now raw.old.now)) }
{
    let Field { base, is_array, ty } = field;
    take_oid(ty, raw)?;
    match take_value(alloc, *base, *is_array, ty, raw, own)? {
        None => Ok(()),
        Some(field_text) => Ok(records::push_field(field_text, text)?),
    }
}

/// The first OID that is not assigned by hand (`FirstGenbkiObjectId`). The OIDs below it are the
/// same in every server.
const FIRST_OTHER_OID: Oid = 10_000;

/// Takes the OID of the type of a field. Another OID is refused if both are below
/// `FIRST_OTHER_OID`, as in `record_recv`; otherwise the type can be a domain over the other one,
/// or one whose OID differs between servers.
fn take_oid(ty: &Type, raw: &mut &[u8]) -> Result<(), Fault>
    ensures { PassesNumber (type_fault (content ty.now) raw.old.now) raw.old.now result raw.new.now }
{
    let found = read_be_i32(raw)?.cast_unsigned();
    if found != ty.oid() && found < FIRST_OTHER_OID && ty.oid() < FIRST_OTHER_OID {
        return Err(Fault::FieldOid);
    }
    Ok(())
}

/// Returns the fault of an array with a lower bound other than 1.
fn other_lower_bound() -> Fault
    ensures { refusal_of result ≡ Some (user (codes "array with a lower bound other than 1")) }
{
    Fault::user("array with a lower bound other than 1")
}

/// Whether the array whose frame begins these bytes, and which is read as a list, has one dimension
/// with a lower bound other than 1. A list does not keep it, and the server's text of such an array
/// begins with its bounds.
fn has_other_lower_bound(frame: &[u8]) -> bool
    ensures { IsTrue result ↔ HasOtherBound (drop 4 frame.now) }
{
    // The length of the cell is followed by the number of dimensions, the flags and the OID of the
    // element type, and then by the length of the dimension and its lower bound.
    let one: &[u8] = &[0, 0, 0, 1];
    frame.len() >= 24 && &frame[4..8] == one && &frame[20..24] != one
}
