//! Postgres types: the built-in ones, and those that users define.
ghost use Rattle.std.specs.Prelude.{◌≡◌, Some, IsOk, IfOk, IfErr, string_bytes};
ghost use Rattle.pg_types.specs.declared.fault.Fault.TheVariants.{Memory};
ghost use Rattle.pg_types.specs.Content.{UserDefinedType, IsBuiltIn, content, kind_content};
ghost use Rattle.pg_types.specs.Content.{oid_of, name_of, same_type, schema_of, kind_of, type_text};
ghost use Rattle.pg_types.specs.Laws.Equality.{same_types, type_equivalence};
ghost use Rattle.pg_types.specs.KindRefs.{kind_ref_view};
ghost use Rattle.std.proofs.Common.{ap};
ghost use Rattle.std.specs.Cmp.{on_equiv, on_per, partial_equiv_from_equiv};
ghost use Rattle.std.specs.Hash as fed;

use super::fault::Fault;
use built_in::BuiltIn;
use std::alloc::{AllocError, Global};
use std::borrow::Cow;
use std::fmt;
use std::hash::{Hash, Hasher};
use std::rc::Rc;

mod built_in;
mod constants;
mod kind;
pub mod laws;

pub use kind::{Field, Kind, KindRef};

/// The object identifier by which a Postgres server names a type.
pub type Oid = u32;

/// A Postgres type.
///
/// Two built-in types are equal if they are the same type. Two user-defined types are equal if
/// their name, OID, kind and schema are equal. A user-defined type never equals a built-in one,
/// even one with the same parts.
#[cycle(types)]
#[derive(Drop)]
pub struct PgType {
    inner: Inner,
}

#[cycle(types)]
#[derive(Drop)]
enum Inner {
    BuiltIn(BuiltIn),
    Other(Rc<Other>),
}

#[cycle(types)]
#[derive(Debug, PartialEq, Drop)]
struct Other {
    name: String,
    oid: Oid,
    kind: Kind,
    schema: String,
}

impl PgType {
    /// Creates a user-defined type from its name, OID, kind and schema. The only error is
    /// [`Fault::Memory`].
    pub fn new(
        alloc: Global,
        name: String,
        oid: Oid,
        kind: Kind,
        schema: String,
    ) -> Result<PgType, Fault>
        ensures other { IfOk result
            (λ t. content t ≡ UserDefinedType (string_bytes name) oid (kind_content kind) (string_bytes schema)) }
        ensures refused { IfErr result (λ e. e ≡ Memory) }
    {
        let other = Rc::new(
            alloc,
            Other {
                name,
                oid,
                kind,
                schema,
            },
        )?;
        Ok(PgType {
            inner: Inner::Other(other),
        })
    }

    /// Returns the OID of this type.
    pub fn oid(&self) -> Oid
        ensures { result ≡ oid_of (content self.now) }
    {
        match &self.inner {
            Inner::BuiltIn(row) => row.oid(),
            Inner::Other(other) => other.oid,
        }
    }

    /// Returns the name of this type, without its schema.
    #[inline(always)]
    pub fn name(&self) -> &str
        ensures { result.now ≡ name_of (content self.now) }
    {
        match &self.inner {
            Inner::BuiltIn(row) => row.name(),
            Inner::Other(other) => other.name.as_str(),
        }
    }

    /// Returns the schema of this type, which is `pg_catalog` for every built-in type.
    pub fn schema(&self) -> &str
        ensures { result.now ≡ schema_of (content self.now) }
    {
        match &self.inner {
            Inner::BuiltIn(_) => "pg_catalog",
            Inner::Other(other) => other.schema.as_str(),
        }
    }

    /// Returns the kind of this type. The element type of a built-in array is owned; everything
    /// that a user-defined type contains is borrowed from it.
    #[inline(always)]
    #[tactic(auto, using(crate::proofs::Fields::composite_content))]
    pub fn kind(&self) -> KindRef<'_>
        ensures { kind_ref_view result ≡ kind_of (content self.now) }
    {
        match &self.inner {
            Inner::BuiltIn(row) => match row.element() {
                Some(element) => KindRef::Array(Cow::Owned(PgType {
                    inner: Inner::BuiltIn(element),
                })),
                None => KindRef::Simple,
            },
            Inner::Other(other) => other.kind.as_kind_ref(),
        }
    }

    /// Whether this type equals `other`, as `==` does.
    #[inline(always)]
    pub fn is(&self, other: &PgType) -> bool
        ensures { result ≡ same_type (content self.now) (content other.now) }
    {
        *self == *other
    }

    /// Returns an equal type. This never fails for a built-in type; for a user-defined type the
    /// only error is [`Fault::Memory`].
    pub fn try_clone(&self) -> Result<PgType, Fault>
        ensures same { IfOk result (λ t. content t ≡ content self.now) }
        ensures refused { IfErr result (λ e. e ≡ Memory) }
        ensures built_in { IsBuiltIn (content self.now) → IsOk result }
    {
        Ok(self.clone()?)
    }
}

impl PartialEq for PgType {
    ghost eq = { λ s t. same_type (content s) (content t) };

    ghost laws = { on_per content (partial_equiv_from_equiv type_equivalence) };

    #[cycle(types)]
    #[inline(always)]
    #[tactic(auto, using(crate::proofs::DerivedTypes::eq_rows, crate::proofs::DerivedTypes::eq_others))]
    fn eq(&self, other: &PgType) -> bool {
        match (&self.inner, &other.inner) {
            // Most types are built in, and for them nothing is called.
            (Inner::BuiltIn(row), Inner::BuiltIn(other)) => *row == *other,
            (Inner::Other(parts), Inner::Other(other)) => **parts == **other,
            _ => false,
        }
    }
}

impl Eq for PgType {
    ghost laws = { on_equiv content type_equivalence };
}

/// A type has the hash of its OID.
impl Hash for PgType {
    ghost hash_input = { λ t. fed.u32 (oid_of (content t)) };

    ghost respects_eq = { λ s t same. ap (λ c. fed.u32 (oid_of c)) (same_types (content s) (content t) same) };

    fn hash<H: Hasher>(&self, state: &mut H) {
        self.oid().hash(state);
    }
}

impl Clone for PgType {
    ghost is_clone = { λ t copy. content copy ≡ content t };

    ghost is_infallible = { λ t. IsBuiltIn (content t) };

    fn clone(&self) -> Result<PgType, AllocError> {
        let inner = match &self.inner {
            Inner::BuiltIn(row) => Inner::BuiltIn(*row),
            Inner::Other(other) => Inner::Other(other.clone()?),
        };
        Ok(PgType { inner })
    }
}

/// Writes a built-in type as its variant, `Int4` for `int4`, and a user-defined type as
/// `Other(Other { .. })` with its four parts, as `postgres-types` does.
impl fmt::Debug for PgType {
    #[cycle(debug)]
    fn fmt<W: fmt::Write>(&self, f: &mut fmt::Formatter<W>) -> fmt::Result {
        fmt::Debug::fmt(&self.inner, f)
    }
}

impl fmt::Debug for Inner {
    #[cycle(debug)]
    fn fmt<W: fmt::Write>(&self, f: &mut fmt::Formatter<W>) -> fmt::Result {
        match self {
            Inner::BuiltIn(row) => fmt::Debug::fmt(row, f),
            Inner::Other(other) => f.debug_tuple("Other").field(other).finish(),
        }
    }
}

/// Writes the name, preceded by the schema and a dot unless the schema is `public` or `pg_catalog`.
impl fmt::Display for PgType {
    ghost output = { λ t. Some (type_text (content t)) };

    fn fmt<W: fmt::Write>(&self, f: &mut fmt::Formatter<W>) -> fmt::Result {
        let schema = self.schema();
        let name = self.name();
        if schema == "public" || schema == "pg_catalog" {
            write!(f, "{name}")
        } else {
            write!(f, "{schema}.{name}")
        }
    }
}
