//! Enumerated types, whose cells are labels.
ghost use Rattle.std.specs.Prelude.{◌≡◌, ◌<◌, IfNone, IfSome, IsTrue, List, Some, false, length, map};
ghost use Rattle.std.specs.Prelude.{slice_get, string_bytes, true, ℕ};
ghost use Rattle.pg_types.specs.Content.{content};
ghost use Rattle.pg_types.specs.KindRefs.{kind_ref_view};
ghost use Rattle.pg_read.specs.Reading.{EveryCell};
ghost use Rattle.pg_read.specs.Laws.Reading.{through_single};
ghost use Rattle.pg_read.specs.Views.{ReadsThrough, Through};
ghost use Rattle.pg_base.proofs.SamenessLaws.{content_equivalence};
ghost use Rattle.postgres_types.specs.Enums.{ReadsLabel, are_labels, has_label, has_labels, is_enum, is_enum_kind};
ghost use Rattle.postgres_types.specs.Enums.{wire_label};
ghost use Rattle.postgres_types.specs.Laws.Enum.{label_lawful, label_single};
ghost use Rattle.postgres_types.specs.Laws.ViewBack.{through_lawful};
ghost use Rattle.postgres_types.specs.ReadingBack.{BackKept};

use crate::paired::Paired;
use bytes::BytesMut;
use pg_base::fault::Fault;
use pg_base::format::{Format, IsNull};
use pg_base::protocol::{text_from_sql, text_to_sql};
use pg_base::types::{KindRef, PgType};
use pg_read::from_sql::FromSql;
use pg_write::to_sql::{ToSql, check_type};
use std::alloc::Global;
use std::fmt;

pub mod laws;

/// An enumeration whose variants are the labels of an enumerated type.
///
/// [`Enum`] around the enumeration is read and written. An implementation gives the name of the
/// type, its labels, and which variant belongs to which label. That the enumeration is read,
/// written and read back correctly follows from that.
pub trait EnumType: Copy + fmt::Debug {
    /// The name of the enumerated type, without its schema.
    ghost type_name: { List ℕ };

    /// The labels.
    ghost labels: { List (List ℕ) };

    /// The variants, in the order of their labels.
    ghost members: { List Self };

    /// The index of the label of a variant.
    ghost place: { Self → ℕ };

    /// Returns the name of the enumerated type, without its schema, byte for byte. SQL folds a name
    /// that is not quoted to lower case.
    fn name() -> &'static str
        ensures { result.now ≡ type_name };

    /// Returns the labels, in the order of their indices.
    fn labels() -> &'static [&'static str]
        ensures { map (λ label. label.now) result.now ≡ labels };

    /// Returns the index of the label of the variant, counted from 0.
    fn place(self) -> usize
        ensures { (result ≡ place self) × (result < length labels) };

    /// Returns the variant whose label is at that index.
    fn at(index: usize) -> Self
        requires { index < length labels }
        ensures { place result ≡ index };

    /// Law: each label has at most 63 bytes, and no label occurs twice.
    ghost proper: { IsTrue (are_labels labels) };

    /// Law: `members` has each variant at the index of its label.
    ghost placed: { (v : Self) → slice_get members (place v) ≡ Some v };
}

/// A value of an enumerated type, as a variant of an enumeration.
///
/// It accepts an enumerated type that has the name of the enumeration, whatever its schema, and the
/// same labels, in any order. Its cell is the text of the label (`enum_recv`, `enum_send`). Reading
/// does not allocate. NULL is refused with `WasNull`. A `WrongType` has the name of the enumerated
/// type.
///
/// In reading, bytes that are not UTF-8 are refused with `Utf8`, and a text that is not a label
/// with `User` and the text `invalid variant`.
#[derive(Debug, Clone, Copy, PartialEq, Eq)]
pub struct Enum<T>(pub T);

/// Whether the label is among the labels.
fn has_label(labels: &[String], label: &str) -> bool
    ensures { result ≡ has_label (map string_bytes labels.now) label.now }
{
    labels.iter().any(|other| other.as_str() == label)
}

/// Whether all the others are among the labels.
fn has_labels(labels: &[String], others: &[&str]) -> bool
    ensures { result ≡ has_labels (map string_bytes labels.now) (map (λ label. label.now) others.now) }
{
    others.iter().all(|other| has_label(labels, other))
}

/// Whether the kind is that of an enumerated type with these labels, in any order.
fn is_enum_kind(labels: &[&str], kind: &KindRef<'_>) -> bool
    ensures { result ≡ is_enum_kind (map (λ label. label.now) labels.now) (kind_ref_view kind.now) }
{
    match kind {
        KindRef::Enum(others) => others.len() == labels.len() && has_labels(others, labels),
        _ => false,
    }
}

/// Whether the type has this name, whatever its schema, and is an enumerated type with these
/// labels, in any order.
pub fn is_enum(name: &str, labels: &[&str], ty: &PgType) -> bool
    ensures { result ≡ is_enum name.now (map (λ label. label.now) labels.now) (content ty.now) }
{
    ty.name() == name && is_enum_kind(labels, &ty.kind())
}

/// Returns the index of the label that the bytes are, or `None` if they are not a label.
fn place_of(labels: &[&str], bytes: &[u8]) -> Option<usize>
    ensures found { IfSome result (λ place. (place < length labels.now)
        × (slice_get (map (λ label. label.now) labels.now) place ≡ Some bytes.now)) }
    ensures none { IfNone result (has_label (map (λ label. label.now) labels.now) bytes.now ≡ false) }
{
    for place in 0..labels.len() {
        if labels[place].as_bytes() == bytes {
            return Some(place);
        }
    }
    None
}

impl<'a, T: EnumType> FromSql<'a> for Enum<T> {
    ghost same = { λ v w. T.place v.0 ≡ T.place w.0 };

    ghost accepted = { is_enum T.type_name T.labels };

    ghost reads = { λ _. ReadsThrough (λ v. T.place v.0) (ReadsLabel T.labels) };

    ghost memory_free = { EveryCell };

    ghost equivalence = { content_equivalence (λ v. T.place v.0) };

    ghost single = { λ _ _. through_single (λ v. T.place v.0) (λ i j. i ≡ j) (ReadsLabel T.labels)
        (label_single T.labels T.proper) };

    fn from_sql(_alloc: Global, _ty: &PgType, raw: &'a [u8]) -> Result<Enum<T>, Fault> {
        if let Some(place) = place_of(T::labels(), raw) {
            return Ok(Enum(T::at(place)));
        }
        text_from_sql(raw)?;
        Err(Fault::user("invalid variant"))
    }

    fn from_sql_null(_alloc: Global, _ty: &PgType) -> Result<Enum<T>, Fault> {
        Err(Fault::WasNull)
    }

    fn accepts(ty: &PgType) -> bool {
        is_enum(T::name(), T::labels(), ty)
    }
}

impl<T: EnumType> ToSql for Enum<T> {
    ghost accepted = { is_enum T.type_name T.labels };

    ghost name = { T.type_name };

    ghost wire = { λ _ v. wire_label T.labels (T.place v.0) };

    ghost by_room = { λ _. Unit {0} };

    ghost refuses_memory_free = { true };

    fn to_sql(&self, alloc: Global, _ty: &PgType, out: &mut BytesMut) -> Result<IsNull, Fault> {
        text_to_sql(alloc, T::labels()[self.0.place()], out)?;
        Ok(IsNull::No)
    }

    fn accepts(ty: &PgType) -> bool {
        is_enum(T::name(), T::labels(), ty)
    }

    fn to_sql_checked(
        &self,
        alloc: Global,
        ty: &PgType,
        out: &mut BytesMut,
    ) -> Result<IsNull, Fault> {
        check_type(<Self as ToSql>::accepts(ty), ty, T::name())?;
        self.to_sql(alloc, ty, out)
    }

    fn encode_format(&self, _ty: &PgType) -> Format {
        Format::Binary
    }
}

/// Variants are read back as themselves.
impl<'a, T: EnumType> Paired<'a> for Enum<T> {
    ghost use Rattle.std.specs.Prelude.{refl};

    ghost back = { λ _ v. Through (λ w. T.place w.0) (BackKept (λ i j. i ≡ j) (T.place v.0)) };

    ghost types = { λ _. refl };

    ghost lawful = { λ _ _. through_lawful (λ v. T.place v.0) (ReadsLabel T.labels) (λ i j. i ≡ j)
        (wire_label T.labels) (BackKept (λ i j. i ≡ j)) (label_lawful T.labels T.proper) };
}
