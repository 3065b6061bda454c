//! The texts of texts: themselves.
ghost use Rattle.std.specs.Prelude.{◌≡◌, string_bytes, ◌↔◌, ℕ, [], List, String};
ghost use Rattle.std.specs.Global.{Global};
ghost use Rattle.std.specs.Borrow.{Bor};
ghost use Rattle.pg_text.specs.Texts.{Shows};

use crate::{FromText, ToText};
use postgres_types::Fault;
use std::alloc::{AllocError, Global};

/// Writes the text itself (`textout`).
impl ToText for &str {
    ghost shows = { Shows (λ s. s.now) };

    fn to_text(&self, _alloc: Global, out: &mut Vec<u8>) -> Result<(), AllocError> {
        out.extend_from_slice(self.as_bytes())
    }
}

impl FromText for String {
    ghost says = { λ text s. string_bytes s ≡ text };

    ghost parses = { λ _. Unit {0} };

    fn from_text(alloc: Global, text: &str) -> Result<String, Fault> {
        Ok(String::from_str(alloc, text)?)
    }
}

/// The text of a `&str` says it as a `String`, and no other.
pub fn text_is_read_back()
    ensures { (s : Bor (List ℕ)) (text : List ℕ) (v : String Global) → ⟦<&'static str as ToText>⟧.shows s [] text
        → ⟦<String as FromText>⟧.says text v ↔ (string_bytes v ≡ s.now) }
{}
