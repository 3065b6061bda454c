//! A composite type, read and written by hand.
ghost use Rattle.std.specs.Prelude.{◌≡◌, [], ◌∷◌, IsTrue, Some, codes, refl, true};
ghost use Rattle.pg_types.specs.Content.{content, field_type, fields_content, is_row, kind_of};
ghost use Rattle.pg_types.specs.Faults.{Answers};
ghost use Rattle.pg_types.specs.declared.types.built_in.BuiltIn.TheVariants.{Int4, Int8};
ghost use Rattle.pg_base.specs.Appending.{KeepsCapacity};
ghost use Rattle.pg_base.specs.Texts.{accepted_text};
ghost use Rattle.pg_read.specs.Reading.{NullAlone};
ghost use Rattle.pg_record.specs.InventoryItems.{SameItem, accepts_item, back_item, item_bytes, accepts_row};
ghost use Rattle.pg_record.specs.InventoryItems.{reads_item, wire_item};
ghost use Rattle.pg_record.specs.Laws.InventoryItems.{item_equivalence, item_lawful, item_single};
ghost use Rattle.postgres_types.specs.Records.{AppendsBytes, AppendsBytesOrPart, fields_of_kind};

use postgres_types::composite::{
    field_count_to_sql, field_to_sql, fields_of, is_record, read_end, read_field, read_field_count,
};
use postgres_types::{
    BytesMut, Fault, Field, Format, FromSql, IsNull, Paired, ToSql, Type, check_type,
};
use std::alloc::Global;

/// The names of the fields of the type, in order.
const FIELDS: &[&str] = &["name", "supplier_id", "price"];

/// A value of the composite type that
/// `CREATE TYPE "InventoryItem" AS (name text, supplier_id int4, price int8)` makes.
///
/// It accepts a composite type of that name, with fields of these names in this order, whose types
/// [`String`], `i32` and `Option<i64>` accept. Its cell is a record (`record_recv`, `record_send`):
/// the field count 3 in 4 bytes, and then, for each field, the OID of its type in 4 bytes and the
/// frame of its cell. The numbers are big-endian. NULL is refused with `WasNull`.
///
/// In reading, fewer than 4 bytes are refused with `Size`, and another field count with
/// `FieldCount`; a truncated OID with `Size`, and another one with `FieldOid`; a truncated cell
/// with `Size`, and a cell that the type of the field refuses with its fault; and trailing bytes
/// with `Size`. In writing, the first field that is refused gives the fault, which is `Transmit` if
/// its cell exceeds 2,147,483,647 bytes. An error leaves the buffer's bytes as they were.
#[derive(Debug, PartialEq, Eq, Drop)]
pub struct InventoryItem {
    pub name: String,
    pub supplier_id: i32,
    /// NULL is `None`.
    pub price: Option<i64>,
}

/// Whether the type is `InventoryItem` with fields whose types are accepted.
fn is_item(ty: &Type) -> bool
    ensures { result ≡ accepts_item (content ty.now) }
{
    if !is_record("InventoryItem", FIELDS, ty) {
        return false;
    }
    match fields_of(ty) {
        [name, supplier_id, price] => {
            <String as FromSql>::accepts(name.type_())
                && <i32 as FromSql>::accepts(supplier_id.type_())
                && <Option<i64> as FromSql>::accepts(price.type_())
        }
        _ => unreachable!(),
    }
}

/// Reads the record of these fields, whose types are accepted.
fn read_fields(
    alloc: Global,
    name: &Field,
    supplier_id: &Field,
    price: &Field,
    raw: &[u8],
) -> Result<InventoryItem, Fault>
    requires name { IsTrue (accepted_text (content (field_type name.now))) }
    requires supplier_id { IsTrue (is_row Int4 (content (field_type supplier_id.now))) }
    requires price { IsTrue (is_row Int8 (content (field_type price.now))) }
    ensures { Answers
        (reads_item (fields_content (name.now ∷ supplier_id.now ∷ price.now ∷ [])) (Some raw.now)) result }
{
    let mut buf = raw;
    read_field_count(3, &mut buf)?;
    let name: String = read_field(alloc, name.type_(), &mut buf)?;
    let supplier_id: i32 = read_field(alloc, supplier_id.type_(), &mut buf)?;
    let price: Option<i64> = read_field(alloc, price.type_(), &mut buf)?;
    read_end(buf)?;
    Ok(InventoryItem {
        name,
        supplier_id,
        price,
    })
}

/// Reads the record of the fields, whose types are accepted.
#[tactic(auto, using(crate::proofs::ItemFields::three_of_list))]
fn read_item(alloc: Global, fields: &[Field], raw: &[u8]) -> Result<InventoryItem, Fault>
    requires { IsTrue (accepts_row (fields_content fields.now)) }
    ensures { Answers (reads_item (fields_content fields.now) (Some raw.now)) result }
{
    let [name, supplier_id, price] = fields else {
        unreachable!()
    };
    read_fields(alloc, name, supplier_id, price, raw)
}

/// Appends the record of these fields, whose types are accepted. An error leaves what was appended
/// so far.
fn append_fields(
    alloc: Global,
    item: &InventoryItem,
    name: &Field,
    supplier_id: &Field,
    price: &Field,
    out: &mut BytesMut,
) -> Result<(), Fault>
    requires name { IsTrue (accepted_text (content (field_type name.now))) }
    requires supplier_id { IsTrue (is_row Int4 (content (field_type supplier_id.now))) }
    requires price { IsTrue (is_row Int8 (content (field_type price.now))) }
    ensures bytes { AppendsBytesOrPart
        (item_bytes (fields_content (name.now ∷ supplier_id.now ∷ price.now ∷ [])) item.now)
        out.old.items out.new.items result }
    ensures capacity { KeepsCapacity out.old out.new }
{
    field_count_to_sql(alloc, 3, out)?;
    field_to_sql(alloc, &item.name, name.type_(), out)?;
    field_to_sql(alloc, &item.supplier_id, supplier_id.type_(), out)?;
    field_to_sql(alloc, &item.price, price.type_(), out)
}

/// Appends the record of the fields, whose types are accepted. An error leaves the buffer's bytes
/// as they were.
#[tactic(auto, using(crate::proofs::ItemFields::three_of_list))]
fn item_to_sql(
    alloc: Global,
    item: &InventoryItem,
    fields: &[Field],
    out: &mut BytesMut,
) -> Result<(), Fault>
    requires { IsTrue (accepts_row (fields_content fields.now)) }
    ensures bytes { AppendsBytes (item_bytes (fields_content fields.now) item.now) out.old.items out.new.items result }
    ensures capacity { KeepsCapacity out.old out.new }
{
    let [name, supplier_id, price] = fields else {
        unreachable!()
    };
    let start = out.len();
    let outcome = append_fields(alloc, item, name, supplier_id, price, out);
    if outcome.is_err() {
        out.truncate(start);
    }
    outcome
}

impl<'a> FromSql<'a> for InventoryItem {
    ghost same = { SameItem };

    ghost accepted = { accepts_item };

    ghost reads = { λ ty. reads_item (fields_of_kind (kind_of ty)) };

    ghost memory_free = { NullAlone };

    ghost equivalence = { item_equivalence };

    ghost single = { item_single };

    fn from_sql(alloc: Global, ty: &Type, raw: &'a [u8]) -> Result<InventoryItem, Fault> {
        read_item(alloc, fields_of(ty), raw)
    }

    fn from_sql_null(_alloc: Global, _ty: &Type) -> Result<InventoryItem, Fault> {
        Err(Fault::WasNull)
    }

    fn accepts(ty: &Type) -> bool {
        is_item(ty)
    }
}

impl ToSql for InventoryItem {
    ghost accepted = { accepts_item };

    ghost name = { codes "InventoryItem" };

    ghost wire = { λ ty. wire_item (fields_of_kind (kind_of ty)) };

    ghost refuses_memory_free = { true };

    fn to_sql(&self, alloc: Global, ty: &Type, out: &mut BytesMut) -> Result<IsNull, Fault> {
        item_to_sql(alloc, self, fields_of(ty), out)?;
        Ok(IsNull::No)
    }

    fn accepts(ty: &Type) -> bool {
        is_item(ty)
    }

    fn to_sql_checked(
        &self,
        alloc: Global,
        ty: &Type,
        out: &mut BytesMut,
    ) -> Result<IsNull, Fault> {
        check_type(<InventoryItem as ToSql>::accepts(ty), ty, "InventoryItem")?;
        self.to_sql(alloc, ty, out)
    }

    fn encode_format(&self, _ty: &Type) -> Format {
        Format::Binary
    }
}

/// An item is read back as itself.
impl<'a> Paired<'a> for InventoryItem {
    ghost back = { λ ty. back_item (fields_of_kind (kind_of ty)) };

    ghost types = { λ _. refl };

    ghost lawful = { item_lawful };
}
