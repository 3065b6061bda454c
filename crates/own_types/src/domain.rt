//! Domains: one whose constraint is checked here, and one whose constraint only the server checks.
ghost use Rattle.std.specs.Prelude.{◌&&◌};
ghost use Rattle.postgres_types.specs.Conversion.{ap, codes, int_le, pos, refl, user};

use postgres_types::Fault;
use postgres_types::newtype::{FromNewtype, Newtype};

/// `CREATE DOMAIN percentage AS smallint CHECK (VALUE BETWEEN 0 AND 100)`.
#[derive(Debug, Clone, Copy, PartialEq, Eq)]
pub struct Percentage(pub i16);

impl Newtype for Percentage {
    type Inner = i16;

    ghost type_name = { codes "percentage" };

    ghost inside = { λ v. v.0 };

    ghost meets = { λ n. int_le (pos 0) n && int_le n (pos 100) };

    ghost unmet = { user (codes "percentage") };

    ghost injective = { λ v w. ap (λ n. record { 0 = n }) };

    fn name() -> &'static str {
        "percentage"
    }

    fn new(inner: i16) -> Percentage {
        Percentage(inner)
    }

    fn inner(&self) -> &i16 {
        &self.0
    }

    fn check(inner: &i16) -> Result<(), Fault> {
        if 0 <= *inner && *inner <= 100 {
            Ok(())
        } else {
            Err(Fault::user("percentage"))
        }
    }
}

impl<'a> FromNewtype<'a> for Percentage {
    ghost respects = { λ v w h. rw h refl };
}

/// `CREATE DOMAIN email AS text CHECK (VALUE LIKE '%@%')`.
#[derive(Debug, PartialEq, Drop)]
pub struct Email(pub String);

impl Newtype for Email {
    type Inner = String;

    ghost type_name = { codes "email" };

    ghost inside = { λ v. v.0 };

    ghost injective = { λ v w. ap (λ text. record { 0 = text }) };

    fn name() -> &'static str {
        "email"
    }

    fn new(inner: String) -> Email {
        Email(inner)
    }

    fn inner(&self) -> &String {
        &self.0
    }

    fn check(_inner: &String) -> Result<(), Fault> {
        Ok(())
    }
}

impl<'a> FromNewtype<'a> for Email {
    ghost respects = { λ _ _ _. refl };
}
