//! Reading JSON documents.
ghost use Rattle.std.specs.Prelude.{◌≡◌, Some, true, false};
ghost use Rattle.serde_json.specs.View.{view};
ghost use Rattle.pg_types.specs.declared.types.built_in.BuiltIn.TheVariants.{Jsonb};
ghost use Rattle.pg_types.specs.Content.{content, is_row};
ghost use Rattle.pg_types.specs.Faults.{Answers};
ghost use Rattle.pg_base.specs.Json.{FormJson, ReadsJson, accepted_json, first_fault_json};
ghost use Rattle.pg_base.proofs.JsonLaws.{json_grammar};
ghost use Rattle.pg_base.proofs.SamenessLaws.{content_equivalence};
ghost use Rattle.pg_read.specs.Reading.{NullAlone};
ghost use Rattle.pg_read.specs.Laws.Reading.{plain_single};

use crate::from_sql::FromSql;
use pg_base::acceptance::{is_json, is_jsonb};
use pg_base::fault::Fault;
use pg_base::json::{JSONB_VERSION, has_other_number};
use pg_base::types::PgType;
use serde_json::Value;
use std::alloc::Global;

/// Reads JSON, which is the document's text (`json_recv`), and JSONB, which is the version 1 in one
/// byte and the text (`jsonb_recv`). An empty JSONB cell is refused with `Size`, and another
/// version with `JsonVersion`. A text from which `serde_json` reads no document is refused with
/// `JsonText`: it is not JSON or not UTF-8, it nests more than 127 levels deep, or a number exceeds
/// the greatest `f64`. A document that contains, at any depth, a number that is neither an `i64`
/// nor a `u64` is refused with `JsonNumber`: a fraction, an exponent, `-0`, or an integer out of
/// their ranges. NULL is refused with `WasNull`.
impl<'a> FromSql<'a> for Value {
    ghost same = { λ v w. view v ≡ view w };

    ghost accepted = { accepted_json };

    ghost reads = { λ ty. ReadsJson view (is_row Jsonb ty) };

    ghost memory_free = { NullAlone };

    ghost equivalence = { content_equivalence view };

    ghost single = { λ ty _. plain_single (λ v w. view v ≡ view w) (FormJson view (is_row Jsonb ty))
        (first_fault_json (is_row Jsonb ty)) (json_grammar view (is_row Jsonb ty)) };

    fn from_sql(alloc: Global, ty: &PgType, raw: &'a [u8]) -> Result<Value, Fault> {
        if is_jsonb(ty) {
            jsonb_document(alloc, raw)
        } else {
            document(alloc, raw)
        }
    }

    fn from_sql_null(_alloc: Global, _ty: &PgType) -> Result<Value, Fault> {
        Err(Fault::WasNull)
    }

    fn accepts(ty: &PgType) -> bool {
        is_json(ty)
    }
}

/// Reads the version and the document after it.
fn jsonb_document(alloc: Global, raw: &[u8]) -> Result<Value, Fault>
    ensures { Answers (ReadsJson view true (Some raw.now)) result }
{
    match raw {
        [] => Err(Fault::Size),
        [JSONB_VERSION, text @ ..] => document(alloc, text),
        _ => Err(Fault::JsonVersion),
    }
}

/// Reads the document of a text.
#[tactic(auto, using(pg_base::proofs::JsonLemmas::no_document, pg_base::proofs::JsonLemmas::other_number))]
fn document(alloc: Global, text: &[u8]) -> Result<Value, Fault>
    ensures { Answers (ReadsJson view false (Some text.now)) result }
{
    let value = match Value::from_slice(alloc, text) {
        Ok(value) => value,
        Err(error) if error.is_memory() => return Err(Fault::Memory),
        Err(_) => return Err(Fault::JsonText),
    };
    if has_other_number(&value) {
        return Err(Fault::JsonNumber);
    }
    Ok(value)
}
