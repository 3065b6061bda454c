//! The texts of values, as PostgreSQL's output functions write them with DateStyle ISO, TimeZone
//! UTC and IntervalStyle `postgres`. Parsing accepts these texts, and some of the others that
//! PostgreSQL's input functions accept.
#![tactic(auto)]

ghost use Rattle.std.specs.Prelude.{◌≡◌, ℕ, List, MatchResult, OnOk, Some, codes};
ghost use Rattle.pg_types.specs.Faults.{refusal_of, user};
ghost use Rattle.pg_types.specs.declared.fault.Fault.TheVariants.{Memory};
ghost use Rattle.pg_text.specs.Texts.{AnyText, AnyValue};

pub mod arrays;
pub mod bits;
pub mod bytea;
mod date_forms;
mod dates;
mod digits;
pub mod documents;
pub mod floats;
pub mod hstore;
mod intervals;
pub mod items;
pub mod network;
pub mod numbers;
pub mod numerics;
mod quotes;
pub mod records;
mod scanner;
pub mod separators;
mod shown;
pub mod small;
mod spaces;
pub mod texts;

use postgres_types::Fault;
use std::alloc::{AllocError, Global};

/// A type whose values have a text.
pub trait ToText {
    /// The text of the value was appended. By default nothing is claimed of the text.
    ghost shows: { Self → List ℕ → List ℕ → Type 0 } = { AnyText };

    /// Appends the text of the value. If memory runs out, a part of the text may have been
    /// appended.
    fn to_text(&self, alloc: Global, out: &mut Vec<u8>) -> Result<(), AllocError>
        ensures { OnOk result (shows self.now out.old.items out.new.items) };
}

/// A type whose values are parsed from texts.
pub trait FromText: Sized + Drop {
    /// The text stands for the value. By default nothing is claimed of the value.
    ghost says: { List ℕ → Self → Type 0 } = { AnyValue };

    /// The text is not refused: only memory can run out. By default this holds of no text.
    ghost parses: { List ℕ → Type 0 } = { λ _. ⊥ };

    /// Parses the value. It accepts the text that the server's output function writes for it; a
    /// text that is not a value of the type is refused with `User`.
    fn from_text(alloc: Global, text: &str) -> Result<Self, Fault>
        ensures { MatchResult result (says text.now) (λ fault. parses text.now → fault ≡ Memory) };
}

/// Returns the fault of a text that is not a value of its type.
pub fn no_value() -> Fault
    ensures { refusal_of result ≡ Some (user (codes "no value of its type")) }
{
    Fault::user("no value of its type")
}
