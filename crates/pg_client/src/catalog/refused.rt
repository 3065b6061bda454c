//! Why a row of the catalog makes no type.
ghost use Rattle.std.specs.Prelude.{◌≡◌};

use postgres_types::{Fault, Oid};
use std::alloc::{AllocError, AllocFailed};
use std::error::Error;
use std::fmt;

/// Why a row of the catalog makes no type.
#[derive(Debug, Clone, Copy, PartialEq, Eq, thiserror::Error)]
pub enum TypeFault {
    /// An allocation failed.
    #[error("out of memory")]
    Memory,
    /// The letter of its kind is not one of those of a [`TypeRow`](super::TypeRow).
    #[error("unknown kind {0}")]
    Kind(i8),
    /// A part of it has this OID, which no type of the catalog has.
    #[error("no type has OID {0}")]
    Unknown(Oid),
    /// It contains itself, or a type that does.
    #[error("the type contains itself")]
    Recursive,
    /// Its fields have more names than types, or fewer.
    #[error("fields with other numbers of names and types")]
    Fields,
    /// An earlier row has the same OID, or a type that was added.
    #[error("another row has its OID")]
    Duplicate,
}

impl From<AllocError> for TypeFault {
    ghost use Rattle.pg_client.specs.declared.catalog.refused.TypeFault.TheVariants.{Memory};

    ghost from_gives = { λ _ fault. fault ≡ Memory };

    fn from(_error: AllocError) -> TypeFault {
        TypeFault::Memory
    }
}

impl<T: Drop> From<AllocFailed<T>> for TypeFault {
    ghost use Rattle.pg_client.specs.declared.catalog.refused.TypeFault.TheVariants.{Memory};

    ghost from_gives = { λ _ fault. fault ≡ Memory };

    fn from(_error: AllocFailed<T>) -> TypeFault {
        TypeFault::Memory
    }
}

/// A row of the catalog that makes no type.
#[derive(Debug, Drop)]
pub struct RefusedType {
    /// Its OID.
    pub oid: Oid,
    /// Its name, without the schema.
    pub name: String,
    /// Why the row makes no type.
    pub fault: TypeFault,
}

/// Writes the name, the OID and the fault: `type "node" (OID 16400): the type contains itself`.
impl fmt::Display for RefusedType {
    fn fmt<W: fmt::Write>(&self, f: &mut fmt::Formatter<W>) -> fmt::Result {
        let RefusedType { oid, name, fault } = self;
        write!(f, "type \"{name}\" (OID {oid}): {fault}")
    }
}

impl Error for RefusedType {}
