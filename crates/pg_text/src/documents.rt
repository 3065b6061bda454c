//! The texts of JSON documents: themselves.
ghost use Rattle.std.specs.Prelude.{◌≡◌, ◌↔◌, ℕ, [], List, String, string_bytes};
ghost use Rattle.std.specs.Borrow.{Bor};
ghost use Rattle.std.specs.Global.{Global};
ghost use Rattle.postgres_types.specs.declared.json_text.JsonText.{JsonText};
ghost use Rattle.pg_text.specs.Texts.{Shows};

use crate::{FromText, ToText};
use postgres_types::{Fault, JsonText};
use std::alloc::{AllocError, Global};

/// Writes the document's text: for JSON as it was stored (`json_out`), for JSONB as the server
/// writes it (`jsonb_out`), which `jsonb_send` sends too.
impl ToText for JsonText<&str> {
    ghost shows = { Shows (λ v. v.0.now) };

    fn to_text(&self, _alloc: Global, out: &mut Vec<u8>) -> Result<(), AllocError> {
        out.extend_from_slice(self.0.as_bytes())
    }
}

/// Takes every text: the server refuses what is not JSON (`json_recv`, `jsonb_recv`).
impl FromText for JsonText<String> {
    ghost says = { λ text v. string_bytes v.0 ≡ text };

    ghost parses = { λ _. Unit {0} };

    fn from_text(alloc: Global, text: &str) -> Result<JsonText<String>, Fault> {
        Ok(JsonText(String::from_str(alloc, text)?))
    }
}

/// The text of a document says it, and no other.
pub fn document_is_read_back()
    ensures { (v : JsonText (Bor (List ℕ))) (text : List ℕ) (w : JsonText (String Global))
        → ⟦<JsonText<&'static str> as ToText>⟧.shows v [] text
        → ⟦<JsonText<String> as FromText>⟧.says text w ↔ (string_bytes w.0 ≡ v.0.now) }
{}
