//! Writing JSON documents.
ghost use Rattle.std.specs.Prelude.{true, codes};
ghost use Rattle.serde_json.specs.View.{view};
ghost use Rattle.pg_types.specs.declared.types.built_in.BuiltIn.TheVariants.{Jsonb};
ghost use Rattle.pg_types.specs.Content.{is_row};
ghost use Rattle.pg_base.specs.Json.{accepted_json, wire_json};

use crate::to_sql::{ToSql, check_type};
use bytes::BytesMut;
use pg_base::acceptance::{is_json, is_jsonb};
use pg_base::fault::Fault;
use pg_base::format::{Format, IsNull};
use pg_base::json::{JSONB_VERSION, has_other_number};
use pg_base::types::PgType;
use serde_json::Value;
use std::alloc::Global;

/// Writes JSON, which is the document's compact text with the members of an object in the order of
/// their keys (`json_send`), and JSONB, which is the version 1 in one byte and that text
/// (`jsonb_send`). A document that contains, at any depth, a number that is neither an `i64` nor a
/// `u64` is refused with `JsonNumber`. The text is first written to a buffer that is allocated.
impl ToSql for Value {
    ghost accepted = { accepted_json };

    ghost name = { codes "serde_json::Value" };

    ghost wire = { λ ty v. wire_json (is_row Jsonb ty) (view v) };

    ghost refuses_memory_free = { true };

    fn to_sql(&self, alloc: Global, ty: &PgType, out: &mut BytesMut) -> Result<IsNull, Fault> {
        if has_other_number(self) {
            return Err(Fault::JsonNumber);
        }
        let text = self.to_vec(alloc)?;
        if is_jsonb(ty) {
            out.reserve(1 + text.len())?;
            out.extend_reserved(&[JSONB_VERSION]);
            out.extend_reserved(text.as_slice());
        } else {
            out.extend_from_slice(text.as_slice())?;
        }
        Ok(IsNull::No)
    }

    fn accepts(ty: &PgType) -> bool {
        is_json(ty)
    }

    fn to_sql_checked(
        &self,
        alloc: Global,
        ty: &PgType,
        out: &mut BytesMut,
    ) -> Result<IsNull, Fault> {
        check_type(Self::accepts(ty), ty, "serde_json::Value")?;
        self.to_sql(alloc, ty, out)
    }

    fn encode_format(&self, _ty: &PgType) -> Format {
        Format::Binary
    }
}
