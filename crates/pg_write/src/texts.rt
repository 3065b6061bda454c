//! Writing texts.
ghost use Rattle.std.specs.Prelude.{◌≡◌, Some, true, codes, string_bytes};
ghost use Rattle.std.specs.Box.{boxed_str_bytes};
ghost use Rattle.std.specs.Cow.{cow_str_bytes};
ghost use Rattle.pg_base.specs.Appending.{Appends};
ghost use Rattle.pg_types.specs.Content.{content};
ghost use Rattle.pg_base.specs.Cells.{versioned_cell};
ghost use Rattle.pg_base.specs.Texts.{accepted_text, has_version, wire_text};

use crate::to_sql::{ToSql, check_type};
use bytes::BytesMut;
use pg_base::acceptance::{has_version, is_text};
use pg_base::fault::Fault;
use pg_base::format::{Format, IsNull};
use pg_base::protocol::{ltree_to_sql, text_to_sql};
use pg_base::types::PgType;
use std::alloc::Global;
use std::borrow::CowStr;
use std::boxed::BoxedStr;

/// Appends the cell of a text for this type.
#[inline(always)]
fn append_text(alloc: Global, ty: &PgType, text: &str, out: &mut BytesMut) -> Result<(), Fault>
    ensures { Appends (Some (versioned_cell (has_version (content ty.now)) text.now)) out.old out.new result }
{
    if has_version(ty) {
        ltree_to_sql(alloc, text, out)
    } else {
        text_to_sql(alloc, text, out)
    }
}

/// Writes VARCHAR, TEXT, BPCHAR, NAME, UNKNOWN, and every type named citext, ltree, lquery or
/// ltxtquery: the text's bytes (`textsend`), after the version 1 for a type named ltree, lquery or
/// ltxtquery (`ltree_send`, `lquery_send`, `ltxtq_send`). A text is never NULL, even if it is
/// empty.
impl<'b> ToSql for &'b str {
    ghost accepted = { accepted_text };

    ghost name = { codes "&str" };

    ghost wire = { λ ty v. wire_text (has_version ty) v.now };

    ghost by_room = { λ _. Unit {0} };

    ghost refuses_memory_free = { true };

    #[inline(always)]
    #[tactic(auto, using(pg_base::proofs::TextLemmas::wire_utf8))]
    fn to_sql(&self, alloc: Global, ty: &PgType, out: &mut BytesMut) -> Result<IsNull, Fault> {
        let text: &str = *self;
        append_text(alloc, ty, text, out)?;
        Ok(IsNull::No)
    }

    fn accepts(ty: &PgType) -> bool
        ensures { result ≡ accepted_text (content ty.now) }
    {
        is_text(ty)
    }

    fn to_sql_checked(
        &self,
        alloc: Global,
        ty: &PgType,
        out: &mut BytesMut,
    ) -> Result<IsNull, Fault> {
        check_type(Self::accepts(ty), ty, "&str")?;
        self.to_sql(alloc, ty, out)
    }

    fn encode_format(&self, _ty: &PgType) -> Format {
        Format::Binary
    }
}

/// Writes VARCHAR, TEXT, BPCHAR, NAME, UNKNOWN, and every type named citext, ltree, lquery or
/// ltxtquery: the text's bytes (`textsend`), after the version 1 for a type named ltree, lquery or
/// ltxtquery (`ltree_send`, `lquery_send`, `ltxtq_send`). A text is never NULL, even if it is
/// empty.
impl ToSql for String {
    ghost accepted = { accepted_text };

    ghost name = { codes "String" };

    ghost wire = { λ ty v. wire_text (has_version ty) (string_bytes v) };

    ghost by_room = { λ _. Unit {0} };

    ghost refuses_memory_free = { true };

    #[inline(always)]
    #[tactic(auto, using(pg_base::proofs::TextLemmas::wire_utf8))]
    fn to_sql(&self, alloc: Global, ty: &PgType, out: &mut BytesMut) -> Result<IsNull, Fault> {
        let text: &str = self.as_str();
        append_text(alloc, ty, text, out)?;
        Ok(IsNull::No)
    }

    fn accepts(ty: &PgType) -> bool {
        is_text(ty)
    }

    fn to_sql_checked(
        &self,
        alloc: Global,
        ty: &PgType,
        out: &mut BytesMut,
    ) -> Result<IsNull, Fault> {
        check_type(Self::accepts(ty), ty, "String")?;
        self.to_sql(alloc, ty, out)
    }

    fn encode_format(&self, _ty: &PgType) -> Format {
        Format::Binary
    }
}

/// Writes VARCHAR, TEXT, BPCHAR, NAME, UNKNOWN, and every type named citext, ltree, lquery or
/// ltxtquery: the text's bytes (`textsend`), after the version 1 for a type named ltree, lquery or
/// ltxtquery (`ltree_send`, `lquery_send`, `ltxtq_send`). A text is never NULL, even if it is
/// empty.
impl ToSql for BoxedStr {
    ghost accepted = { accepted_text };

    ghost name = { codes "Box<str>" };

    ghost wire = { λ ty v. wire_text (has_version ty) (boxed_str_bytes v) };

    ghost by_room = { λ _. Unit {0} };

    ghost refuses_memory_free = { true };

    #[inline(always)]
    #[tactic(auto, using(pg_base::proofs::TextLemmas::wire_utf8))]
    fn to_sql(&self, alloc: Global, ty: &PgType, out: &mut BytesMut) -> Result<IsNull, Fault> {
        let text: &str = self.as_str();
        append_text(alloc, ty, text, out)?;
        Ok(IsNull::No)
    }

    fn accepts(ty: &PgType) -> bool {
        is_text(ty)
    }

    fn to_sql_checked(
        &self,
        alloc: Global,
        ty: &PgType,
        out: &mut BytesMut,
    ) -> Result<IsNull, Fault> {
        check_type(Self::accepts(ty), ty, "Box<str>")?;
        self.to_sql(alloc, ty, out)
    }

    fn encode_format(&self, _ty: &PgType) -> Format {
        Format::Binary
    }
}

/// Writes VARCHAR, TEXT, BPCHAR, NAME, UNKNOWN, and every type named citext, ltree, lquery or
/// ltxtquery: the text's bytes (`textsend`), after the version 1 for a type named ltree, lquery or
/// ltxtquery (`ltree_send`, `lquery_send`, `ltxtq_send`). A text is never NULL, even if it is
/// empty.
impl<'b> ToSql for CowStr<'b> {
    ghost accepted = { accepted_text };

    ghost name = { codes "Cow<str>" };

    ghost wire = { λ ty v. wire_text (has_version ty) (cow_str_bytes v) };

    ghost by_room = { λ _. Unit {0} };

    ghost refuses_memory_free = { true };

    #[inline(always)]
    #[tactic(auto, using(pg_base::proofs::TextLemmas::wire_utf8))]
    fn to_sql(&self, alloc: Global, ty: &PgType, out: &mut BytesMut) -> Result<IsNull, Fault> {
        let text: &str = self.as_str();
        append_text(alloc, ty, text, out)?;
        Ok(IsNull::No)
    }

    fn accepts(ty: &PgType) -> bool
        ensures { result ≡ accepted_text (content ty.now) }
    {
        is_text(ty)
    }

    fn to_sql_checked(
        &self,
        alloc: Global,
        ty: &PgType,
        out: &mut BytesMut,
    ) -> Result<IsNull, Fault> {
        check_type(Self::accepts(ty), ty, "Cow<str>")?;
        self.to_sql(alloc, ty, out)
    }

    fn encode_format(&self, _ty: &PgType) -> Format {
        Format::Binary
    }
}
