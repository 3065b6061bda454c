//! Structs as the values of a composite type.
ghost use Rattle.std.specs.Prelude.{◌≡◌, List, Bool, IsTrue, length, map, true, ℕ};
ghost use Rattle.pg_types.specs.Content.{content, fields_content, kind_of};
ghost use Rattle.pg_base.proofs.SamenessLaws.{inside_equivalence};
ghost use Rattle.pg_read.specs.Laws.Reading.{through_single};
ghost use Rattle.pg_read.specs.Views.{ReadsThrough, Through};
ghost use Rattle.postgres_types.specs.Composites.{accepts_record, are_named, is_composite, is_record, reads_record};
ghost use Rattle.postgres_types.specs.Composites.{record_cell};
ghost use Rattle.postgres_types.specs.Laws.Composites.{composite_lawful, composite_single, composite_types};
ghost use Rattle.pg_base.specs.Appending.{KeepsCapacity};
ghost use Rattle.pg_write.specs.Writing.{HasCell};
ghost use Rattle.postgres_types.specs.Records.{AppendsBytes, RecordFree, RoomSuffices, fields_of_kind, record_bytes};
ghost use Rattle.postgres_types.specs.Laws.ViewBack.{through_lawful};

use super::fields::{FromFields, PairedFields, ToFields};
use super::reading::{fields_of, read_field_count};
use super::writing::field_count_to_sql;
use crate::paired::Paired;
use bytes::BytesMut;
use pg_base::fault::Fault;
use pg_base::format::{Format, IsNull};
use pg_base::types::{Field, KindRef, PgType};
use pg_read::from_sql::FromSql;
use pg_write::to_sql::{ToSql, check_type};
use std::alloc::Global;
use std::fmt;

/// A struct whose fields are those of a composite type.
///
/// [`Composite`] around the struct is read and written. An implementation gives the name of the
/// type, the names of its fields, and the struct's own fields as a row. That the struct is read,
/// written and read back correctly follows from the types of the fields.
pub trait Record: Sized + fmt::Debug + Drop {
    /// The fields as a row: `And<String, And<i32, End>>` for a text and an integer.
    type Fields: ToFields;

    /// The name of the composite type, without its schema.
    ghost type_name: { List ℕ };

    /// The names of the fields, in order.
    ghost names: { List (List ℕ) };

    /// The values of the fields.
    ghost inside: { Self → Self.Fields };

    /// Returns the name of the composite type, without its schema, byte for byte. SQL folds a name
    /// that is not quoted to lower case.
    fn name() -> &'static str
        ensures { result.now ≡ type_name };

    /// Returns the names of the fields of the type, in order.
    fn field_names() -> &'static [&'static str]
        ensures { map (λ name. name.now) result.now ≡ names };

    /// Creates the struct from a row of its fields.
    fn from_row(row: Self::Fields) -> Self
        ensures { inside result ≡ row };

    /// Appends the fields, as [`to_fields`] of references to them does.
    ///
    /// [`to_fields`]: super::FieldRefs::to_fields
    fn row_to_sql(&self, alloc: Global, fields: &[Field], out: &mut BytesMut) -> Result<(), Fault>
        requires { IsTrue (Self.Fields.accepted (fields_content fields.now)) }
        ensures bytes { AppendsBytes (Self.Fields.bytes (fields_content fields.now) (inside self.now))
            out.old.items out.new.items result }
        ensures room { Self.Fields.by_room (inside self.now)
            → RoomSuffices (Self.Fields.bytes (fields_content fields.now) (inside self.now)) out.old.spare result }
        ensures capacity { KeepsCapacity out.old out.new };

    /// Law: there are as many names as fields.
    ghost names_width: { length names ≡ Self.Fields.width };

    /// Law: structs whose rows of fields are the same are the same.
    ghost injective: { (v w : Self) → inside v ≡ inside w → v ≡ w };
}

/// A value of a composite type, as a struct.
///
/// It accepts a composite type that has the name of the struct, whatever its schema, and fields
/// with the names of the struct, in order, whose types the struct's fields accept. Its cell is a
/// record: see [the module](super::composite). NULL is refused with `WasNull`. A `WrongType` has
/// the name of the composite type.
///
/// In reading, fewer than 4 bytes are refused with `Size`, and another number of fields with
/// `FieldCount`. Then, field by field, a truncated OID is refused with `Size`, another OID than
/// that of the field's type with `FieldOid`, a truncated cell with `Size`, and a cell that the
/// field refuses with its fault. Trailing bytes are refused with `Size`. The record itself
/// allocates nothing.
///
/// In writing, the first field that is refused gives the fault, which is `Transmit` if its cell
/// exceeds 2,147,483,647 bytes. An error leaves the buffer's bytes as they were. If no field is
/// refused, writing needs only the room of the cell where writing each field does.
#[derive(Debug, PartialEq, Eq, Drop)]
pub struct Composite<T>(pub T);

/// Whether the fields have these names, in this order.
fn are_named(names: &[&str], fields: &[Field]) -> bool
    ensures { result ≡ are_named (map (λ name. name.now) names.now) (fields_content fields.now) }
{
    if names.len() != fields.len() {
        return false;
    }
    for place in 0..names.len() {
        if fields[place].name() != names[place] {
            return false;
        }
    }
    true
}

/// Whether the type is a composite type.
fn is_composite(ty: &PgType) -> bool
    ensures { result ≡ is_composite (kind_of (content ty.now)) }
{
    matches!(ty.kind(), KindRef::Composite(_))
}

/// Whether the type has this name, whatever its schema, and is a composite type whose fields have
/// these names in this order. The types of the fields are not checked.
pub fn is_record(name: &str, names: &[&str], ty: &PgType) -> bool
    ensures { result ≡ is_record name.now (map (λ name. name.now) names.now) (content ty.now) }
{
    ty.name() == name && is_composite(ty) && are_named(names, fields_of(ty))
}

impl<'a, T: Record> FromSql<'a> for Composite<T>
where
    T::Fields: FromFields<'a>,
{
    ghost same = { λ v w. T.Fields.same (T.inside v.0) (T.inside w.0) };

    ghost accepted = { accepts_record T.type_name T.names T.Fields.FromFields.accepted };

    ghost reads = { λ ty. ReadsThrough (λ v. T.inside v.0) (reads_record T.Fields.reads ty) };

    ghost memory_free = { RecordFree T.Fields.memory_free };

    ghost equivalence = { inside_equivalence (λ v. T.inside v.0) T.Fields.same T.Fields.equivalence };

    ghost single = { λ ty ok. through_single (λ v. T.inside v.0) T.Fields.same (reads_record T.Fields.reads ty)
        (composite_single T.type_name T.names T.Fields.FromFields.accepted T.Fields.same T.Fields.reads T.Fields.single
        ty ok) };

    #[tactic(auto, using(crate::specs::Laws::Composites::fields_accepted))]
    fn from_sql(alloc: Global, ty: &PgType, raw: &'a [u8]) -> Result<Composite<T>, Fault> {
        let fields = fields_of(ty);
        let mut buf = raw;
        read_field_count(fields.len(), &mut buf)?;
        let row = T::Fields::from_fields(alloc, fields, buf)?;
        Ok(Composite(T::from_row(row)))
    }

    fn from_sql_null(_alloc: Global, _ty: &PgType) -> Result<Composite<T>, Fault> {
        Err(Fault::WasNull)
    }

    fn accepts(ty: &PgType) -> bool {
        is_record(T::name(), T::field_names(), ty)
            && <T::Fields as FromFields<'a>>::accepts(fields_of(ty))
    }
}

/// Appends the record. An error leaves the buffer's bytes as they were.
fn record_to_sql<T: Record>(
    alloc: Global,
    value: &T,
    fields: &[Field],
    out: &mut BytesMut,
) -> Result<(), Fault>
    requires { IsTrue (T.Fields.accepted (fields_content fields.now)) }
    ensures bytes { AppendsBytes (record_bytes (length fields.now)
        (T.Fields.bytes (fields_content fields.now) (T.inside value.now)))
        out.old.items out.new.items result }
    ensures room { T.Fields.by_room (T.inside value.now)
        → RoomSuffices (record_bytes (length fields.now)
        (T.Fields.bytes (fields_content fields.now) (T.inside value.now))) out.old.spare result }
    ensures capacity { KeepsCapacity out.old out.new }
{
    let start = out.len();
    field_count_to_sql(alloc, fields.len(), out)?;
    match value.row_to_sql(alloc, fields, out) {
        Ok(()) => Ok(()),
        Err(fault) => {
            out.truncate(start);
            Err(fault)
        }
    }
}

impl<T: Record> ToSql for Composite<T> {
    ghost accepted = { accepts_record T.type_name T.names T.Fields.accepted };

    ghost name = { T.type_name };

    ghost wire = { λ ty v. record_cell T.Fields.bytes ty (T.inside v.0) };

    ghost by_room = { λ v. T.Fields.by_room (T.inside v.0)
        × HasCell (accepts_record T.type_name T.names T.Fields.accepted) (record_cell T.Fields.bytes) (T.inside v.0) };

    ghost refuses_memory_free = { true };

    #[tactic(auto, using(crate::specs::Laws::Composites::fields_accepted))]
    fn to_sql(&self, alloc: Global, ty: &PgType, out: &mut BytesMut) -> Result<IsNull, Fault> {
        record_to_sql(alloc, &self.0, fields_of(ty), out)?;
        Ok(IsNull::No)
    }

    fn accepts(ty: &PgType) -> bool {
        is_record(T::name(), T::field_names(), ty) && T::Fields::accepts(fields_of(ty))
    }

    fn to_sql_checked(
        &self,
        alloc: Global,
        ty: &PgType,
        out: &mut BytesMut,
    ) -> Result<IsNull, Fault> {
        check_type(<Self as ToSql>::accepts(ty), ty, T::name())?;
        self.to_sql(alloc, ty, out)
    }

    fn encode_format(&self, _ty: &PgType) -> Format {
        Format::Binary
    }
}

impl<'a, T: Record> Paired<'a> for Composite<T>
where
    T::Fields: PairedFields<'a>,
{
    ghost back = { λ ty v. Through (λ w. T.inside w.0) (T.Fields.back (fields_of_kind (kind_of ty)) (T.inside v.0)) };

    ghost types = { composite_types T.type_name T.names T.Fields.FromFields.accepted T.Fields.ToFields.accepted
        T.Fields.types };

    ghost lawful = { λ ty ok. through_lawful (λ v. T.inside v.0) (reads_record T.Fields.reads ty) T.Fields.same
        (record_cell T.Fields.bytes ty) (T.Fields.back (fields_of_kind (kind_of ty)))
        (composite_lawful T.type_name T.names T.Fields.FromFields.accepted T.Fields.same T.Fields.reads T.Fields.bytes
        T.Fields.back T.Fields.lawful ty ok) };
}
