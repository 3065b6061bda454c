//! Texts, in UTF-8.
ghost use Rattle.std.specs.Prelude.{◌∷◌, Some, true, false};
ghost use Rattle.pg_types.specs.Faults.{Answers, NeverMemory};
ghost use Rattle.pg_base.specs.Formats.{Decodes};
ghost use Rattle.pg_base.specs.Texts.{FormText, first_fault_text};
ghost use Rattle.pg_base.specs.Appending.{Appends};

use crate::fault::Fault;
use bytes::BytesMut;
use std::alloc::Global;

/// Reads a text: its bytes, in UTF-8 (`textrecv`). Other bytes are refused with `Utf8`.
#[tactic(auto, using(crate::proofs::TextLemmas::text_refused))]
pub fn text_from_sql(raw: &[u8]) -> Result<&str, Fault>
    ensures outcome { Answers (Decodes (FormText (λ text. text.now) false) (first_fault_text false) raw.now) result }
    ensures never_memory { NeverMemory result }
{
    match str::from_utf8(raw) {
        Ok(text) => Ok(text),
        Err(_) => Err(Fault::Utf8),
    }
}

/// Appends a text: its bytes, in UTF-8 (`textsend`).
#[inline(always)]
pub fn text_to_sql(_alloc: Global, v: &str, out: &mut BytesMut) -> Result<(), Fault>
    ensures { Appends (Some v.now) out.old out.new result }
{
    out.extend_from_slice(v.as_bytes())?;
    Ok(())
}

/// The version, which is the first byte of the cells that have one.
const VERSION: u8 = 1;

/// Reads the version 1 and a text. Another first byte, or none, is refused with `TextVersion`, and
/// then a text that is not UTF-8 with `Utf8`.
fn versioned_from_sql(raw: &[u8]) -> Result<&str, Fault>
    ensures outcome { Answers (Decodes (FormText (λ text. text.now) true) (first_fault_text true) raw.now) result }
    ensures never_memory { NeverMemory result }
{
    match raw {
        [VERSION, text @ ..] => text_from_sql(text),
        _ => Err(Fault::TextVersion),
    }
}

/// Appends the version 1 and the text.
#[inline(always)]
fn versioned_to_sql(v: &str, out: &mut BytesMut) -> Result<(), Fault>
    ensures { Appends (Some (1 ∷ v.now)) out.old out.new result }
{
    out.reserve(1 + v.len())?;
    out.extend_reserved(&[VERSION]);
    out.extend_reserved(v.as_bytes());
    Ok(())
}

/// Reads ltree: the version 1 in one byte, and the text (`ltree_recv`). Another first byte, or
/// none, is refused with `TextVersion`, and then a text that is not UTF-8 with `Utf8`.
pub fn ltree_from_sql(raw: &[u8]) -> Result<&str, Fault>
    ensures outcome { Answers (Decodes (FormText (λ text. text.now) true) (first_fault_text true) raw.now) result }
    ensures never_memory { NeverMemory result }
{
    versioned_from_sql(raw)
}

/// Appends ltree: the version 1 in one byte, and the text (`ltree_send`).
#[inline(always)]
pub fn ltree_to_sql(_alloc: Global, v: &str, out: &mut BytesMut) -> Result<(), Fault>
    ensures { Appends (Some (1 ∷ v.now)) out.old out.new result }
{
    versioned_to_sql(v, out)
}

/// Reads lquery: the version 1 in one byte, and the text (`lquery_recv`). Another first byte, or
/// none, is refused with `TextVersion`, and then a text that is not UTF-8 with `Utf8`.
pub fn lquery_from_sql(raw: &[u8]) -> Result<&str, Fault>
    ensures outcome { Answers (Decodes (FormText (λ text. text.now) true) (first_fault_text true) raw.now) result }
    ensures never_memory { NeverMemory result }
{
    versioned_from_sql(raw)
}

/// Appends lquery: the version 1 in one byte, and the text (`lquery_send`).
pub fn lquery_to_sql(_alloc: Global, v: &str, out: &mut BytesMut) -> Result<(), Fault>
    ensures { Appends (Some (1 ∷ v.now)) out.old out.new result }
{
    versioned_to_sql(v, out)
}

/// Reads ltxtquery: the version 1 in one byte, and the text (`ltxtq_recv`). Another first byte, or
/// none, is refused with `TextVersion`, and then a text that is not UTF-8 with `Utf8`.
pub fn ltxtquery_from_sql(raw: &[u8]) -> Result<&str, Fault>
    ensures outcome { Answers (Decodes (FormText (λ text. text.now) true) (first_fault_text true) raw.now) result }
    ensures never_memory { NeverMemory result }
{
    versioned_from_sql(raw)
}

/// Appends ltxtquery: the version 1 in one byte, and the text (`ltxtq_send`).
pub fn ltxtquery_to_sql(_alloc: Global, v: &str, out: &mut BytesMut) -> Result<(), Fault>
    ensures { Appends (Some (1 ∷ v.now)) out.old out.new result }
{
    versioned_to_sql(v, out)
}
