//! Reading texts.
ghost use Rattle.std.specs.Prelude.{◌≡◌, IfOk, Some, string_bytes};
ghost use Rattle.std.specs.Box.{boxed_str_bytes};
ghost use Rattle.std.specs.Cow.{IsBorrowedStr, cow_str_bytes};
ghost use Rattle.pg_types.specs.Content.{content};
ghost use Rattle.pg_types.specs.Faults.{Answers, NeverMemory};
ghost use Rattle.pg_base.proofs.FormatLaws.{text_grammar};
ghost use Rattle.pg_base.proofs.SamenessLaws.{content_equivalence};
ghost use Rattle.pg_base.specs.Texts.{accepted_text, FormText, ReadsText, first_fault_text, has_version};
ghost use Rattle.pg_read.specs.Reading.{EveryCell, NullAlone};
ghost use Rattle.pg_read.specs.Laws.Reading.{plain_single};

use crate::from_sql::FromSql;
use pg_base::acceptance::{has_version, is_text};
use pg_base::fault::Fault;
use pg_base::protocol::{ltree_from_sql, text_from_sql};
use pg_base::types::PgType;
use std::alloc::Global;
use std::borrow::CowStr;
use std::boxed::BoxedStr;

/// Returns the text of a cell of this type.
fn text_of<'a>(ty: &PgType, raw: &'a [u8]) -> Result<&'a str, Fault>
    ensures outcome { Answers (ReadsText (λ s. s.now) (has_version (content ty.now)) (Some raw.now)) result }
    ensures never_memory { NeverMemory result }
{
    if has_version(ty) {
        ltree_from_sql(raw)
    } else {
        text_from_sql(raw)
    }
}

/// Reads VARCHAR, TEXT, BPCHAR, NAME, UNKNOWN, and every type named citext, ltree, lquery or
/// ltxtquery: the text's bytes in UTF-8, borrowed (`textrecv`). A cell of ltree, lquery or
/// ltxtquery begins with the version 1 (`ltree_recv`, `lquery_recv`, `ltxtq_recv`); another first
/// byte, or none, is refused with `TextVersion`. A text that is not UTF-8 is refused with `Utf8`,
/// and NULL with `WasNull`.
impl<'a> FromSql<'a> for &'a str {
    ghost same = { λ s t. s.now ≡ t.now };

    ghost accepted = { accepted_text };

    ghost reads = { λ ty. ReadsText (λ s. s.now) (has_version ty) };

    ghost memory_free = { EveryCell };

    ghost equivalence = { content_equivalence (λ s. s.now) };

    ghost single = { λ ty _. plain_single (λ s t. s.now ≡ t.now) (FormText (λ s. s.now) (has_version ty))
        (first_fault_text (has_version ty)) (text_grammar (λ s. s.now) (has_version ty)) };

    fn from_sql(_alloc: Global, ty: &PgType, raw: &'a [u8]) -> Result<&'a str, Fault> {
        text_of(ty, raw)
    }

    fn from_sql_null(_alloc: Global, _ty: &PgType) -> Result<&'a str, Fault> {
        Err(Fault::WasNull)
    }

    fn accepts(ty: &PgType) -> bool
        ensures { result ≡ accepted_text (content ty.now) }
    {
        is_text(ty)
    }
}

/// Reads VARCHAR, TEXT, BPCHAR, NAME, UNKNOWN, and every type named citext, ltree, lquery or
/// ltxtquery: the text's bytes in UTF-8, always borrowed (`textrecv`). A cell of ltree, lquery or
/// ltxtquery begins with the version 1 (`ltree_recv`, `lquery_recv`, `ltxtq_recv`); another first
/// byte, or none, is refused with `TextVersion`. A text that is not UTF-8 is refused with `Utf8`,
/// and NULL with `WasNull`.
impl<'a> FromSql<'a> for CowStr<'a> {
    ghost same = { λ s t. cow_str_bytes s ≡ cow_str_bytes t };

    ghost accepted = { accepted_text };

    ghost reads = { λ ty. ReadsText cow_str_bytes (has_version ty) };

    ghost memory_free = { EveryCell };

    ghost equivalence = { content_equivalence cow_str_bytes };

    ghost single = { λ ty _. plain_single (λ s t. cow_str_bytes s ≡ cow_str_bytes t)
        (FormText cow_str_bytes (has_version ty)) (first_fault_text (has_version ty))
        (text_grammar cow_str_bytes (has_version ty)) };

    fn from_sql(_alloc: Global, ty: &PgType, raw: &'a [u8]) -> Result<CowStr<'a>, Fault>
        ensures outcome { Answers (ReadsText cow_str_bytes (has_version (content ty.now)) (Some raw.now)) result }
        ensures never_memory { NeverMemory result }
        ensures borrowed { IfOk result IsBorrowedStr }
    {
        Ok(CowStr::Borrowed(text_of(ty, raw)?))
    }

    fn from_sql_null(_alloc: Global, _ty: &PgType) -> Result<CowStr<'a>, Fault> {
        Err(Fault::WasNull)
    }

    fn accepts(ty: &PgType) -> bool
        ensures { result ≡ accepted_text (content ty.now) }
    {
        is_text(ty)
    }
}

/// Reads VARCHAR, TEXT, BPCHAR, NAME, UNKNOWN, and every type named citext, ltree, lquery or
/// ltxtquery: the text's bytes in UTF-8, copied (`textrecv`). A cell of ltree, lquery or ltxtquery
/// begins with the version 1 (`ltree_recv`, `lquery_recv`, `ltxtq_recv`); another first byte, or
/// none, is refused with `TextVersion`. A text that is not UTF-8 is refused with `Utf8`, and NULL
/// with `WasNull`.
impl<'a> FromSql<'a> for String {
    ghost same = { λ s t. string_bytes s ≡ string_bytes t };

    ghost accepted = { accepted_text };

    ghost reads = { λ ty. ReadsText string_bytes (has_version ty) };

    ghost memory_free = { NullAlone };

    ghost equivalence = { content_equivalence string_bytes };

    ghost single = { λ ty _. plain_single (λ s t. string_bytes s ≡ string_bytes t)
        (FormText string_bytes (has_version ty)) (first_fault_text (has_version ty))
        (text_grammar string_bytes (has_version ty)) };

    fn from_sql(alloc: Global, ty: &PgType, raw: &'a [u8]) -> Result<String, Fault> {
        Ok(String::from_str(alloc, text_of(ty, raw)?)?)
    }

    fn from_sql_null(_alloc: Global, _ty: &PgType) -> Result<String, Fault> {
        Err(Fault::WasNull)
    }

    fn accepts(ty: &PgType) -> bool {
        is_text(ty)
    }
}

/// Reads VARCHAR, TEXT, BPCHAR, NAME, UNKNOWN, and every type named citext, ltree, lquery or
/// ltxtquery: the text's bytes in UTF-8, copied (`textrecv`). A cell of ltree, lquery or ltxtquery
/// begins with the version 1 (`ltree_recv`, `lquery_recv`, `ltxtq_recv`); another first byte, or
/// none, is refused with `TextVersion`. A text that is not UTF-8 is refused with `Utf8`, and NULL
/// with `WasNull`.
impl<'a> FromSql<'a> for BoxedStr {
    ghost same = { λ s t. boxed_str_bytes s ≡ boxed_str_bytes t };

    ghost accepted = { accepted_text };

    ghost reads = { λ ty. ReadsText boxed_str_bytes (has_version ty) };

    ghost memory_free = { NullAlone };

    ghost equivalence = { content_equivalence boxed_str_bytes };

    ghost single = { λ ty _. plain_single (λ s t. boxed_str_bytes s ≡ boxed_str_bytes t)
        (FormText boxed_str_bytes (has_version ty)) (first_fault_text (has_version ty))
        (text_grammar boxed_str_bytes (has_version ty)) };

    fn from_sql(alloc: Global, ty: &PgType, raw: &'a [u8]) -> Result<BoxedStr, Fault> {
        Ok(String::from_str(alloc, text_of(ty, raw)?)?.into_boxed_str())
    }

    fn from_sql_null(_alloc: Global, _ty: &PgType) -> Result<BoxedStr, Fault> {
        Err(Fault::WasNull)
    }

    fn accepts(ty: &PgType) -> bool {
        is_text(ty)
    }
}
