//! The kinds of Postgres types, and the fields of a composite type.
ghost use Rattle.std.specs.Prelude.{◌≡◌, IfOk, IfErr, map, string_bytes};
ghost use Rattle.pg_types.specs.declared.fault.Fault.TheVariants.{Memory};
ghost use Rattle.pg_types.specs.Content.{SameField, content, kind_content, fields_content, field_name, field_type};
ghost use Rattle.pg_types.specs.KindRefs.{kind_ref_view};

use super::PgType;
use crate::fault::Fault;
use std::alloc::Global;
use std::borrow::Cow;

/// How a Postgres type is built.
#[cycle(types)]
#[derive(Debug, PartialEq, Eq, Hash, Drop)]
pub enum Kind {
    /// A type like `int4` or `text`, which is built from no other type.
    Simple,
    /// An enumerated type, with its labels.
    Enum(Vec<String>),
    /// A pseudo-type, like `anyarray`, which no column can have.
    Pseudo,
    /// An array, with the type of its elements.
    Array(PgType),
    /// A range type, with the type of its bounds.
    Range(PgType),
    /// A multirange type, with the type of the bounds of its ranges.
    Multirange(PgType),
    /// A domain, with its underlying type.
    Domain(PgType),
    /// A composite type, with its fields.
    Composite(Vec<Field>),
}

/// A field of a composite type.
#[cycle(types)]
#[derive(Debug, PartialEq, Eq, Hash, Drop)]
pub struct Field {
    name: String,
    type_: PgType,
}

/// A borrowed view of a [`Kind`], with the same variants.
#[derive(Debug, PartialEq, Eq, Hash, Drop)]
pub enum KindRef<'a> {
    /// A type like `int4` or `text`, which is built from no other type.
    Simple,
    /// An enumerated type, with its labels.
    Enum(&'a [String]),
    /// A pseudo-type, like `anyarray`, which no column can have.
    Pseudo,
    /// An array, with the type of its elements.
    Array(Cow<'a, PgType>),
    /// A range type, with the type of its bounds.
    Range(Cow<'a, PgType>),
    /// A multirange type, with the type of the bounds of its ranges.
    Multirange(Cow<'a, PgType>),
    /// A domain, with its underlying type.
    Domain(Cow<'a, PgType>),
    /// A composite type, with its fields.
    Composite(&'a [Field]),
}

impl Kind {
    /// Returns an equal kind. The only error is [`Fault::Memory`].
    #[tactic(auto, using(crate::proofs::Fields::composite_content))]
    pub fn try_clone(&self, alloc: Global) -> Result<Kind, Fault>
        ensures same { IfOk result (λ kind. kind_content kind ≡ kind_content self.now) }
        ensures refused { IfErr result (λ e. e ≡ Memory) }
    {
        Ok(match self {
            Kind::Simple => Kind::Simple,
            Kind::Enum(labels) => Kind::Enum(clone_labels(alloc, labels.as_slice())?),
            Kind::Pseudo => Kind::Pseudo,
            Kind::Array(inner) => Kind::Array(inner.try_clone()?),
            Kind::Range(inner) => Kind::Range(inner.try_clone()?),
            Kind::Multirange(inner) => Kind::Multirange(inner.try_clone()?),
            Kind::Domain(inner) => Kind::Domain(inner.try_clone()?),
            Kind::Composite(fields) => Kind::Composite(clone_fields(alloc, fields.as_slice())?),
        })
    }

    #[inline(always)]
    #[tactic(auto, using(crate::proofs::Fields::composite_content))]
    pub(super) fn as_kind_ref(&self) -> KindRef<'_>
        ensures { kind_ref_view result ≡ kind_content self.now }
    {
        match self {
            Kind::Simple => KindRef::Simple,
            Kind::Enum(labels) => KindRef::Enum(labels.as_slice()),
            Kind::Pseudo => KindRef::Pseudo,
            Kind::Array(inner) => KindRef::Array(Cow::Borrowed(inner)),
            Kind::Range(inner) => KindRef::Range(Cow::Borrowed(inner)),
            Kind::Multirange(inner) => KindRef::Multirange(Cow::Borrowed(inner)),
            Kind::Domain(inner) => KindRef::Domain(Cow::Borrowed(inner)),
            Kind::Composite(fields) => KindRef::Composite(fields.as_slice()),
        }
    }
}

impl Field {
    /// Creates a field from its name and type.
    pub fn new(name: String, type_: PgType) -> Field
        ensures name { field_name result ≡ string_bytes name }
        ensures type_ { content (field_type result) ≡ content type_ }
    {
        Field { name, type_ }
    }

    /// Returns the name of this field.
    pub fn name(&self) -> &str
        ensures { result.now ≡ field_name self.now }
    {
        self.name.as_str()
    }

    /// Returns the type of this field.
    pub fn type_(&self) -> &PgType
        ensures { result.now ≡ field_type self.now }
    {
        &self.type_
    }

    /// Returns an equal field. The only error is [`Fault::Memory`].
    pub fn try_clone(&self, alloc: Global) -> Result<Field, Fault>
        ensures same { IfOk result (λ field. SameField self.now field) }
        ensures refused { IfErr result (λ e. e ≡ Memory) }
    {
        Ok(Field {
            name: String::from_str(alloc, self.name())?,
            type_: self.type_.try_clone()?,
        })
    }
}

fn clone_labels(alloc: Global, labels: &[String]) -> Result<Vec<String>, Fault>
    ensures same { IfOk result (λ copies. map string_bytes copies.items ≡ map string_bytes labels.now) }
    ensures refused { IfErr result (λ e. e ≡ Memory) }
{
    let mut copies = Vec::new(alloc);
    for label in labels {
        copies.push(String::from_str(alloc, label.as_str())?)?;
    }
    Ok(copies)
}

#[tactic(auto, using(crate::proofs::Fields::fields_more))]
fn clone_fields(alloc: Global, fields: &[Field]) -> Result<Vec<Field>, Fault>
    ensures same { IfOk result
        (λ copies. fields_content copies.items ≡ fields_content fields.now) }
    ensures refused { IfErr result (λ e. e ≡ Memory) }
{
    let mut copies = Vec::new(alloc);
    for field in fields {
        copies.push(field.try_clone(alloc)?)?;
    }
    Ok(copies)
}
