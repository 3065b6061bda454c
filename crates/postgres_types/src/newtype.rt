//! Newtypes: structs around a value of another type.
//!
//! A struct implements [`Newtype`], and [`FromNewtype`] if it is read. Then [`Domain`] around it is
//! a value of the domain of its name, and [`Transparent`] around it is read and written as the
//! value inside.
ghost use Rattle.std.specs.Prelude.{◌≡◌, ℕ, Bool, IfErr, IfOk, List, Some, codes, false, true};
ghost use Rattle.pg_types.specs.Faults.{Refusal, refusal_of, user};

use pg_base::fault::Fault;
use pg_read::from_sql::FromSql;
use pg_write::to_sql::ToSql;
use std::fmt;

mod domain;
pub mod laws;
mod transparent;

pub use domain::{Domain, is_domain, underlying_type};
pub use transparent::Transparent;

/// A struct around a value of another type.
///
/// An implementation gives the name, the value inside, and the values that its constraint admits.
/// That [`Domain`] and [`Transparent`] around the struct are read, written and read back correctly
/// follows from the type of the value inside.
pub trait Newtype: Sized + fmt::Debug + Drop {
    /// The type of the value inside.
    type Inner: ToSql;

    /// The name of the domain, without its schema.
    ghost type_name: { List ℕ };

    /// Returns the value inside.
    ghost inside: { Self → Self.Inner };

    /// The value meets the constraint. By default every value does.
    ghost meets: { Self.Inner → Bool } = { λ _. true };

    /// The fault of a value that does not meet the constraint.
    ghost unmet: { Refusal } = { user (codes "constraint") };

    /// Returns the name of the domain, without its schema, which is also the name of the Rust type
    /// in a `WrongType`, byte for byte. SQL folds a name that is not quoted to lower case.
    fn name() -> &'static str
        ensures { result.now ≡ type_name };

    /// Creates the struct from the value inside.
    fn new(inner: Self::Inner) -> Self
        ensures { inside result ≡ inner };

    /// Returns the value inside.
    fn inner(&self) -> &Self::Inner
        ensures { result.now ≡ inside self.now };

    /// Returns `Ok` if the value meets the constraint, and otherwise a fault, such as `User` with a
    /// text. A struct that leaves its constraint to the server returns `Ok`.
    fn check(inner: &Self::Inner) -> Result<(), Fault>
        ensures met { IfOk result (λ _. meets inner.now ≡ true) }
        ensures unmet { IfErr result (λ f. (meets inner.now ≡ false) × (refusal_of f ≡ Some unmet)) };

    /// Law: structs with the same value inside are the same.
    ghost injective: { (v w : Self) → inside v ≡ inside w → v ≡ w };
}

/// A newtype that is read.
///
/// It has no functions.
pub trait FromNewtype<'a>: Newtype
where
    Self::Inner: FromSql<'a>,
{
    /// Law: of two values with the same content, both meet the constraint, or neither does.
    ghost respects: { (v w : Self.Inner) → Self.Inner.same v w → Self.meets v ≡ Self.meets w };
}
