//! JSON documents as their texts.
ghost use Rattle.std.specs.Prelude.{◌≡◌, Err, IfErr, IfOk, IfSome, IsTrue, Ok, codes, true};
ghost use Rattle.pg_types.specs.declared.types.built_in.BuiltIn.TheVariants.{Jsonb};
ghost use Rattle.pg_types.specs.Content.{content, is_row};
ghost use Rattle.pg_types.specs.Faults.{NeverMemory, refusal_of};
ghost use Rattle.pg_base.proofs.SamenessLaws.{inside_equivalence};
ghost use Rattle.pg_base.specs.Appending.{KeepsCapacity};
ghost use Rattle.pg_read.specs.Laws.Reading.{through_single};
ghost use Rattle.pg_read.specs.Views.{ReadsThrough, Through};
ghost use Rattle.pg_write.specs.Writing.{KeepsRoomRule, Writes};
ghost use Rattle.postgres_types.specs.JsonTexts.{IsWritten, OfEither, ReadsDocument, accepts_document};
ghost use Rattle.postgres_types.specs.JsonTexts.{document_text, text_type, wire_document};
ghost use Rattle.postgres_types.specs.Laws.JsonText.{document_lawful, document_single, document_types, text_accepted};
ghost use Rattle.postgres_types.specs.Laws.ViewBack.{through_lawful};

pub mod laws;

use crate::paired::Paired;
use bytes::BytesMut;
use pg_base::acceptance::{is_json, is_jsonb};
use pg_base::fault::Fault;
use pg_base::format::{Format, IsNull};
use pg_base::json::JSONB_VERSION;
use pg_base::types::PgType;
use pg_read::from_sql::FromSql;
use pg_write::to_sql::{ToSql, check_type};
use std::alloc::Global;

/// A JSON document as its text: a `JsonText<&str>`, a `JsonText<String>`, or one of another type
/// that is read and written as TEXT.
///
/// It accepts JSON, whose cell is the text (`json_recv`, `json_send`), and JSONB, whose cell is the
/// version 1 in one byte and the text (`jsonb_recv`, `jsonb_send`). The text is not parsed: numbers
/// of any kind, spaces, the order of keys and duplicate keys stay as they are, and the server
/// refuses what is not JSON. NULL is that of the text.
///
/// In reading, an empty JSONB cell is refused with `Size`, another version with `JsonVersion`, and
/// then a text with the fault of its type, such as `Utf8`. In writing, a text is refused with the
/// fault of its type. An error leaves the buffer's bytes as they were.
#[derive(Debug, PartialEq, Eq, Drop)]
pub struct JsonText<T>(pub T);

/// Returns the text in the bytes of a cell of this type.
fn document_text<'a>(ty: &PgType, raw: &'a [u8]) -> Result<&'a [u8], Fault>
    ensures ok { IfOk result (λ text. document_text (is_row Jsonb (content ty.now)) raw.now ≡ Ok text.now) }
    ensures err { IfErr result (λ fault. IfSome (refusal_of fault) (λ refusal.
        document_text (is_row Jsonb (content ty.now)) raw.now ≡ Err refusal)) }
    ensures never_memory { NeverMemory result }
{
    if !is_jsonb(ty) {
        return Ok(raw);
    }
    match raw {
        [] => Err(Fault::Size),
        [JSONB_VERSION, text @ ..] => Ok(text),
        _ => Err(Fault::JsonVersion),
    }
}

/// Appends the cell of a JSONB with this text, as `to_sql` does.
fn jsonb_to_sql<T: ToSql>(alloc: Global, text: &T, out: &mut BytesMut) -> Result<IsNull, Fault>
    requires { IsTrue (T.accepted text_type) }
    ensures writes { Writes (wire_document true (T.wire text_type text.now)) out.old.items out.new.items result }
    ensures room { T.by_room text.now → IsWritten (T.wire text_type text.now)
        → KeepsRoomRule (wire_document true (T.wire text_type text.now)) out.old.spare result }
    ensures capacity { KeepsCapacity out.old out.new }
{
    let start = out.len();
    out.extend_from_slice(&[JSONB_VERSION])?;
    let written = text.to_sql(alloc, &PgType::TEXT, out);
    if !matches!(written, Ok(IsNull::No)) {
        out.truncate(start);
    }
    written
}

impl<'a, T: FromSql<'a>> FromSql<'a> for JsonText<T> {
    ghost same = { λ v w. T.same v.0 w.0 };

    ghost accepted = { accepts_document T.accepted };

    ghost reads = { λ ty. ReadsThrough (λ v. v.0) (ReadsDocument (is_row Jsonb ty) (T.reads text_type)) };

    ghost memory_free = { OfEither T.memory_free };

    ghost equivalence = { inside_equivalence (λ v. v.0) T.same T.equivalence };

    ghost single = { λ ty ok. through_single (λ v. v.0) T.same (ReadsDocument (is_row Jsonb ty) (T.reads text_type))
        (document_single T.same (T.reads text_type) (is_row Jsonb ty)
        (T.single text_type (text_accepted T.accepted ty ok))) };

    #[tactic(auto, using(crate::specs::Laws::JsonText::text_accepted))]
    fn from_sql(alloc: Global, ty: &PgType, raw: &'a [u8]) -> Result<JsonText<T>, Fault> {
        let text = document_text(ty, raw)?;
        Ok(JsonText(T::from_sql(alloc, &PgType::TEXT, text)?))
    }

    #[tactic(auto, using(crate::specs::Laws::JsonText::text_accepted))]
    fn from_sql_null(alloc: Global, _ty: &PgType) -> Result<JsonText<T>, Fault> {
        Ok(JsonText(T::from_sql_null(alloc, &PgType::TEXT)?))
    }

    fn accepts(ty: &PgType) -> bool {
        is_json(ty) && <T as FromSql<'a>>::accepts(&PgType::TEXT)
    }
}

impl<T: ToSql> ToSql for JsonText<T> {
    ghost accepted = { accepts_document T.accepted };

    ghost name = { codes "JsonText" };

    ghost wire = { λ ty v. wire_document (is_row Jsonb ty) (T.wire text_type v.0) };

    ghost by_room = { λ v. T.by_room v.0 × IsWritten (T.wire text_type v.0) };

    ghost refuses_memory_free = { true };

    #[tactic(auto, using(crate::specs::Laws::JsonText::text_accepted))]
    fn to_sql(&self, alloc: Global, ty: &PgType, out: &mut BytesMut) -> Result<IsNull, Fault> {
        if is_jsonb(ty) {
            jsonb_to_sql(alloc, &self.0, out)
        } else {
            self.0.to_sql(alloc, &PgType::TEXT, out)
        }
    }

    fn accepts(ty: &PgType) -> bool {
        is_json(ty) && <T as ToSql>::accepts(&PgType::TEXT)
    }

    fn to_sql_checked(
        &self,
        alloc: Global,
        ty: &PgType,
        out: &mut BytesMut,
    ) -> Result<IsNull, Fault> {
        check_type(<Self as ToSql>::accepts(ty), ty, "JsonText")?;
        self.to_sql(alloc, ty, out)
    }

    fn encode_format(&self, _ty: &PgType) -> Format {
        Format::Binary
    }
}

impl<'a, T: Paired<'a>> Paired<'a> for JsonText<T> {
    ghost back = { λ ty v. Through (λ w. w.0) (T.back text_type v.0) };

    ghost types = { document_types T.FromSql.accepted T.ToSql.accepted T.types };

    ghost lawful = { λ ty ok. through_lawful (λ v. v.0) (ReadsDocument (is_row Jsonb ty) (T.reads text_type)) T.same
        (λ x. wire_document (is_row Jsonb ty) (T.wire text_type x)) (T.back text_type)
        (document_lawful (T.reads text_type) (is_row Jsonb ty) T.same (T.wire text_type) (T.back text_type)
        (T.lawful text_type (text_accepted T.FromSql.accepted ty ok))) };
}
