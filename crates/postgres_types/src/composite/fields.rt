//! The fields of a composite type, one after another.
ghost use Rattle.std.specs.Prelude.{◌≡◌, ℕ, List, Bool, IsTrue, [], Ok, suc};
ghost use Rattle.pg_types.specs.Content.{FieldsContent, fields_content};
ghost use Rattle.pg_types.specs.Faults.{Answers, NeverMemory, Outcome};
ghost use Rattle.pg_base.specs.Appending.{KeepsCapacity};
ghost use Rattle.pg_base.specs.Sameness.{IsEquivalence};
ghost use Rattle.pg_read.specs.Reading.{GivesSingle};
ghost use Rattle.postgres_types.specs.CompositeFields.{BackAnd, BackEnd, ReadsAnd, ReadsEnd, SameAnd, accepts_and, and};
ghost use Rattle.postgres_types.specs.CompositeFields.{bytes_and, no_fields};
ghost use Rattle.postgres_types.specs.Laws.CompositeFields.{and_equivalence, and_lawful, and_single};
ghost use Rattle.postgres_types.specs.Laws.CompositeFields.{no_fields_equivalence, no_fields_lawful, no_fields_single};
ghost use Rattle.postgres_types.specs.Laws.CompositeFields.{and_width, no_fields_width};
ghost use Rattle.postgres_types.specs.Laws.Record.{AreLawful};
ghost use Rattle.postgres_types.specs.Records.{AppendsBytes, Bytes, FieldFree, RoomSuffices, count_of};

use super::reading::{read_end, read_field};
use super::writing::field_to_sql;
use crate::paired::Paired;
use bytes::BytesMut;
use pg_base::fault::Fault;
use pg_base::types::Field;
use pg_read::from_sql::FromSql;
use pg_write::to_sql::ToSql;
use std::alloc::Global;

/// The value of a field, followed by those of others.
#[derive(Debug, PartialEq, Eq, Drop)]
pub struct And<A, B>(pub A, pub B);

/// The end of the values: there are no more fields.
#[derive(Debug, PartialEq, Eq, Drop)]
pub struct End;

/// The values of fields that are read: [`End`], or [`And`] of a value that is read and the values
/// of the other fields.
pub trait FromFields<'a>: Sized {
    /// Two values have the same content.
    ghost same: { Self → Self → Type 0 };

    /// The fields' types are accepted.
    ghost accepted: { FieldsContent → Bool };

    /// The bytes of the fields have the outcome.
    ghost reads: { FieldsContent → List ℕ → Outcome Self → Type 0 };

    /// Reading the bytes of the fields does not allocate.
    ghost memory_free: { List ℕ → Type 0 };

    /// Reads the fields one after another, and then the end of the record. Returns the values, the
    /// first fault of a field, `Size` if bytes trail the last field, or `Memory`. The types must be
    /// accepted.
    fn from_fields(alloc: Global, fields: &[Field], raw: &'a [u8]) -> Result<Self, Fault>
        requires { IsTrue (accepted (fields_content fields.now)) }
        ensures outcome { Answers (reads (fields_content fields.now) raw.entry.now) result }
        ensures never_memory { memory_free raw.entry.now → NeverMemory result };

    /// Whether fields of these types, in this number, are read. Their names do not matter.
    fn accepts(fields: &[Field]) -> bool
        ensures { result ≡ accepted (fields_content fields.now) };

    /// Law: sameness is an equivalence.
    ghost equivalence: { IsEquivalence same };

    /// Law: the bytes of the fields have at most one outcome.
    ghost single: { (fields : FieldsContent) → IsTrue (accepted fields) → (s : List ℕ)
        → GivesSingle same (reads fields s) };
}

/// The values of fields that are written: [`End`], or [`And`] of a value that is written and the
/// values of the other fields. They are written through references, as [`FieldRefs`].
pub trait ToFields {
    /// The fields' types are accepted.
    ghost accepted: { FieldsContent → Bool };

    /// What the values are written as.
    ghost bytes: { FieldsContent → Self → Bytes };

    /// Writing the values does not allocate if nothing is refused and the buffer has room for their
    /// bytes. By default this holds of no values.
    ghost by_room: { Self → Type 0 } = { λ _. ⊥ };

    /// The number of the fields.
    ghost width: { ℕ };

    /// Whether fields of these types, in this number, are written. Their names do not matter.
    fn accepts(fields: &[Field]) -> bool
        ensures { result ≡ accepted (fields_content fields.now) };

    /// Law: only that number of fields is accepted.
    ghost width_of_accepted: { (fields : FieldsContent) → IsTrue (accepted fields) → count_of fields ≡ width };
}

/// References to the values of fields that are written: [`End`], or [`And`], [`And4`] or [`And8`]
/// of references and those of the other fields.
///
/// [`And4`]: super::And4
/// [`And8`]: super::And8
pub trait FieldRefs {
    /// The types of the values.
    type Values: ToFields;

    /// The values that are referred to.
    ghost values: { Self → Self.Values };

    /// Appends the fields, one after another. The types must be accepted. It fails with the fault
    /// of the first field that is refused. An error, `Memory` included, leaves the buffer's bytes
    /// as they were.
    fn to_fields(&self, alloc: Global, fields: &[Field], out: &mut BytesMut) -> Result<(), Fault>
        requires { IsTrue (Self.Values.accepted (fields_content fields.now)) }
        ensures bytes { AppendsBytes (Self.Values.bytes (fields_content fields.now) (values self.now))
            out.old.items out.new.items result }
        ensures room { Self.Values.by_room (values self.now)
            → RoomSuffices (Self.Values.bytes (fields_content fields.now) (values self.now)) out.old.spare result }
        ensures capacity { KeepsCapacity out.old out.new };
}

/// The values of fields that are read back as they were written.
///
/// It has no functions, like [`Paired`].
pub trait PairedFields<'a>: FromFields<'a> + ToFields {
    /// What the bytes of written values are read back as.
    ghost back: { FieldsContent → Self → Outcome Self → Type 0 };

    /// Law: both directions accept the same types.
    ghost types: { (fields : FieldsContent) → Self.FromFields.accepted fields ≡ Self.ToFields.accepted fields };

    /// Law: reading, writing and reading back agree.
    ghost lawful: { (fields : FieldsContent) → IsTrue (Self.FromFields.accepted fields)
        → AreLawful Self.same (Self.reads fields) (Self.bytes fields) (back fields) };
}

impl<'a> FromFields<'a> for End {
    ghost same = { λ _ _. Unit {0} };

    ghost accepted = { no_fields };

    ghost reads = { ReadsEnd };

    ghost memory_free = { λ _. Unit {0} };

    ghost equivalence = { no_fields_equivalence };

    ghost single = { λ fields _. no_fields_single fields };

    fn from_fields(_alloc: Global, _fields: &[Field], raw: &'a [u8]) -> Result<End, Fault> {
        read_end(raw)?;
        Ok(End)
    }

    fn accepts(fields: &[Field]) -> bool {
        fields.is_empty()
    }
}

impl ToFields for End {
    ghost accepted = { no_fields };

    ghost bytes = { λ _ _. Ok [] };

    ghost by_room = { λ _. Unit {0} };

    ghost width = { 0 };

    ghost width_of_accepted = { no_fields_width };

    fn accepts(fields: &[Field]) -> bool {
        fields.is_empty()
    }
}

impl FieldRefs for End {
    type Values = End;

    ghost values = { λ v. v };

    fn to_fields(
        &self,
        _alloc: Global,
        _fields: &[Field],
        _out: &mut BytesMut,
    ) -> Result<(), Fault> {
        Ok(())
    }
}

impl<'a> PairedFields<'a> for End {
    ghost use Rattle.std.specs.Prelude.{refl};

    ghost back = { BackEnd };

    ghost types = { λ _. refl };

    ghost lawful = { λ fields _. no_fields_lawful fields };
}

impl<'a, A: FromSql<'a>, B: FromFields<'a>> FromFields<'a> for And<A, B> {
    ghost same = { SameAnd A.same B.same };

    ghost accepted = { accepts_and A.accepted B.accepted };

    ghost reads = { ReadsAnd A.reads B.reads };

    ghost memory_free = { FieldFree A.memory_free B.memory_free };

    ghost equivalence = { and_equivalence A.same B.same A.equivalence B.equivalence };

    ghost single = { and_single A.same A.accepted A.reads B.same B.accepted B.reads A.single B.single };

    fn from_fields(alloc: Global, fields: &[Field], raw: &'a [u8]) -> Result<And<A, B>, Fault> {
        let Some((field, fields)) = fields.split_first() else {
            unreachable!()
        };
        let mut buf = raw;
        let value: A = read_field(alloc, field.type_(), &mut buf)?;
        let others = B::from_fields(alloc, fields, buf)?;
        Ok(And(value, others))
    }

    fn accepts(fields: &[Field]) -> bool {
        match fields.split_first() {
            Some((field, fields)) => A::accepts(field.type_()) && B::accepts(fields),
            None => false,
        }
    }
}

impl<A: ToSql, B: ToFields> ToFields for And<A, B> {
    ghost accepted = { accepts_and A.accepted B.accepted };

    ghost bytes = { bytes_and A.wire B.bytes };

    ghost by_room = { λ v. A.by_room v.0 × B.by_room v.1 };

    ghost width = { suc B.width };

    ghost width_of_accepted = { and_width A.accepted B.accepted B.width B.width_of_accepted };

    fn accepts(fields: &[Field]) -> bool {
        match fields.split_first() {
            Some((field, fields)) => A::accepts(field.type_()) && B::accepts(fields),
            None => false,
        }
    }
}

impl<'a, A: ToSql, B: FieldRefs> FieldRefs for And<&'a A, B> {
    type Values = And<A, B::Values>;

    ghost values = { λ v. and v.0.now (B.values v.1) };

    fn to_fields(&self, alloc: Global, fields: &[Field], out: &mut BytesMut) -> Result<(), Fault> {
        let Some((field, fields)) = fields.split_first() else {
            unreachable!()
        };
        let start = out.len();
        field_to_sql(alloc, self.0, field.type_(), out)?;
        match self.1.to_fields(alloc, fields, out) {
            Ok(()) => Ok(()),
            Err(fault) => {
                out.truncate(start);
                Err(fault)
            }
        }
    }
}

impl<'a, A: FieldRefs> FieldRefs for &'a A {
    type Values = A::Values;

    ghost values = { λ v. A.values v.now };

    fn to_fields(&self, alloc: Global, fields: &[Field], out: &mut BytesMut) -> Result<(), Fault> {
        (**self).to_fields(alloc, fields, out)
    }
}

impl<'a, A: Paired<'a>, B: PairedFields<'a>> PairedFields<'a> for And<A, B> {
    ghost use Rattle.postgres_types.specs.Laws.CompositeFields.{and_types};

    ghost back = { BackAnd A.back B.back };

    ghost types = { and_types A.FromSql.accepted A.ToSql.accepted B.FromFields.accepted B.ToFields.accepted
        A.types B.types };

    ghost lawful = { and_lawful A.same A.FromSql.accepted A.reads B.same B.FromFields.accepted B.reads A.wire A.back
        B.bytes B.back A.lawful B.lawful };
}
