//! Why a value could not be read or written.
ghost use Rattle.std.specs.Prelude.{◌≡◌};
ghost use Rattle.pg_types.specs.declared.fault.Fault.TheVariants.{Memory};

use crate::types::PgType;
use bytes::ByteStr;
use std::alloc::{AllocError, AllocFailed};
use std::error::Error;
use std::fmt;

/// NULL was read as a type that has no value for it.
#[derive(Debug, Clone, Copy)]
pub struct WasNull;

impl fmt::Display for WasNull {
    ghost use Rattle.std.specs.Prelude.{Some};
    ghost use Rattle.pg_types.specs.FaultTexts.{was_null_text};

    ghost output = { λ _. Some was_null_text };

    fn fmt<W: fmt::Write>(&self, f: &mut fmt::Formatter<W>) -> fmt::Result {
        f.write_str("a Postgres value was `NULL`")
    }
}

impl Error for WasNull {}

/// The error that a Rust type does not accept a Postgres type.
#[derive(Debug, Drop)]
pub struct WrongType {
    postgres: PgType,
    rust: ByteStr,
}

impl WrongType {
    ghost use Rattle.pg_types.specs.FaultTexts.{postgres_type, rust_name};
    ghost use Rattle.pg_types.specs.Content.{content};

    /// Creates the error that the Rust type named `rust` does not accept the Postgres type `ty`.
    pub fn new(ty: PgType, rust: &'static str) -> WrongType
        ensures postgres { postgres_type result ≡ content ty }
        ensures rust { rust_name result ≡ rust.now }
    {
        WrongType {
            postgres: ty,
            rust: ByteStr::from_static(rust),
        }
    }
}

impl fmt::Display for WrongType {
    ghost use Rattle.std.specs.Prelude.{Some};
    ghost use Rattle.pg_types.specs.FaultTexts.{wrong_type_text, postgres_type, rust_name};

    ghost output = { λ w. Some (wrong_type_text (postgres_type w) (rust_name w)) };

    fn fmt<W: fmt::Write>(&self, f: &mut fmt::Formatter<W>) -> fmt::Result {
        let rust = self.rust.as_str();
        let postgres = &self.postgres;
        write!(
            f,
            "cannot convert between the Rust type `{rust}` and the Postgres type `{postgres}`"
        )
    }
}

impl Error for WrongType {}

/// Why a value could not be read or written. Each has a number, [`code`](Fault::code).
#[derive(Debug, Drop, thiserror::Error)]
pub enum Fault {
    /// An allocation failed. Every call that allocates may return it, at any point.
    #[error("out of memory")]
    Memory,
    /// NULL was read as a type that has no value for it.
    #[error("a Postgres value was `NULL`")]
    WasNull,
    /// The Rust type does not accept the Postgres type.
    #[error(transparent)]
    WrongType(WrongType),
    /// The cell, or a part of it, has another length than its format prescribes.
    #[error("invalid buffer size")]
    Size,
    /// A text is not UTF-8.
    #[error("invalid UTF-8")]
    Utf8,
    /// A count is negative.
    #[error("invalid count")]
    Count,
    /// The key of an hstore has a negative length.
    #[error("invalid key length")]
    KeyLength,
    /// An array has more than one dimension.
    #[error("array contains too many dimensions")]
    Dimensions,
    /// An array has fewer elements than the Rust array.
    #[error("too few elements in array (expected {expected}, got {got})")]
    TooFew { expected: usize, got: usize },
    /// An array has more elements than the Rust array.
    #[error("excess elements in array (expected {expected}, got more than that)")]
    Excess { expected: usize },
    /// The cell's date, time or timestamp lies outside the Rust type's range.
    #[error("value too large to decode")]
    Decode,
    /// The value, or the number of its bytes or elements, is too large for its cell.
    #[error("value too large to transmit")]
    Transmit,
    /// A JSONB cell has another version than 1.
    #[error("unsupported JSONB encoding version")]
    JsonVersion,
    /// An ltree, lquery or ltxtquery cell has another version than 1.
    #[error("unsupported text version")]
    TextVersion,
    /// The text of a JSON or JSONB cell is not a JSON document.
    #[error("invalid JSON")]
    JsonText,
    /// A JSON document contains a number that is neither an `i64` nor a `u64`.
    #[error("JSON number is not a whole number")]
    JsonNumber,
    /// The address family is neither IPv4 nor IPv6.
    #[error("invalid IP family")]
    Family,
    /// A netmask is longer than its address.
    #[error("invalid netmask")]
    Netmask,
    /// An address has another length than its family prescribes.
    #[error("invalid address length")]
    AddressLength,
    /// A network address has bits set to the right of its netmask.
    #[error("host bits are set")]
    HostBits,
    /// A user's own conversion refused the cell or the value, with this text; see
    /// [`user`](Fault::user).
    #[error("{0}")]
    User(ByteStr),
    /// A record has another number of fields than its composite type.
    #[error("invalid field count")]
    FieldCount,
    /// A field of a record has another type OID than its composite type prescribes.
    #[error("unexpected field type")]
    FieldOid,
}

impl Fault {
    ghost use Rattle.std.specs.Prelude.{Some};
    ghost use Rattle.pg_types.specs.Faults.{code_of, refusal_of, user};

    /// Returns the number of the fault: from 1 for `Memory` to 23 for `FieldOid`, in the order of
    /// the variants.
    pub fn code(&self) -> u32
        ensures { result ≡ code_of self.now }
    {
        match self {
            Fault::Memory => 1,
            Fault::WasNull => 2,
            Fault::WrongType(_) => 3,
            Fault::Size => 4,
            Fault::Utf8 => 5,
            Fault::Count => 6,
            Fault::KeyLength => 7,
            Fault::Dimensions => 8,
            Fault::TooFew { .. } => 9,
            Fault::Excess { .. } => 10,
            Fault::Decode => 11,
            Fault::Transmit => 12,
            Fault::JsonVersion => 13,
            Fault::TextVersion => 14,
            Fault::JsonText => 15,
            Fault::JsonNumber => 16,
            Fault::Family => 17,
            Fault::Netmask => 18,
            Fault::AddressLength => 19,
            Fault::HostBits => 20,
            Fault::User(_) => 21,
            Fault::FieldCount => 22,
            Fault::FieldOid => 23,
        }
    }

    /// Creates the fault with which a user's own conversion refuses a cell or a value. It does not
    /// allocate.
    pub fn user(text: &'static str) -> Fault
        ensures { refusal_of result ≡ Some (user text.now) }
    {
        Fault::User(ByteStr::from_static(text))
    }
}

impl From<AllocError> for Fault {
    ghost from_gives = { λ _ fault. fault ≡ Memory };

    fn from(_error: AllocError) -> Fault {
        Fault::Memory
    }
}

impl<T: Drop> From<AllocFailed<T>> for Fault {
    ghost from_gives = { λ _ fault. fault ≡ Memory };

    fn from(_error: AllocFailed<T>) -> Fault {
        Fault::Memory
    }
}
