//! Maps of texts.
ghost use Rattle.std.specs.Prelude.{◌≤◌, ◌+◌, map, IfOk};
ghost use Rattle.pg_base.specs.Appending.{Appends, Measures};
ghost use Rattle.pg_base.specs.Cells.{cell_of, frame, max_length};
ghost use Rattle.pg_base.specs.Counts.{StartsWith, ToRead, count_checks, number_width};
ghost use Rattle.pg_types.specs.Faults.{Answers, NeverMemory};
ghost use Rattle.pg_base.specs.Formats.{Decodes, first_fault_of};
ghost use Rattle.pg_base.specs.Hstore.{SpellsCount, SpellsEntry, SpellsText, TakesEntry, entry_checks};
ghost use Rattle.pg_base.specs.Hstore.{hstore_bytes, borrowed_entry, value_checks};

use super::counts::{Item, Items, split_cell, split_count};
use super::frames::{MAX_LEN, frame_len, frame_to_sql};
use super::numbers::int4_to_sql;
use super::texts::text_from_sql;
use crate::fault::Fault;
use bytes::BytesMut;
use std::alloc::Global;
use std::marker::Model;

/// The key of an hstore entry, and its value (`None` is NULL).
type Entry<'a> = (&'a str, Option<&'a str>);

/// The entries of an hstore that are still to be read; see [`hstore_from_sql`].
#[derive(Debug, Drop)]
pub struct HstoreEntries<'a> {
    items: Items<'a>,
}

impl<'a> Model for HstoreEntries<'a> {
    ghost Value = { ToRead };

    ghost view = { λ e. e.items };
}

/// Reads the header of an hstore (`hstore_recv`): the number of entries in 4 bytes, big-endian. The
/// entries follow. A truncated number is refused with `Size`, and a negative one with `Count`. It
/// does not allocate.
pub fn hstore_from_sql(_alloc: Global, raw: &[u8]) -> Result<HstoreEntries<'_>, Fault>
    ensures outcome { Answers (Decodes SpellsCount (λ b. first_fault_of (count_checks b)) raw.now) result }
    ensures never_memory { NeverMemory result }
{
    let (left, bytes) = split_count(raw)?;
    Ok(HstoreEntries {
        items: Items::new(left, bytes),
    })
}

/// An entry at the front of the bytes.
impl<'a> Item<'a> for (&'a str, Option<&'a str>) {
    ghost spells = { λ s e. SpellsEntry s (borrowed_entry e) };

    ghost checks = { entry_checks };

    fn split(bytes: &'a [u8]) -> Result<(Entry<'a>, &'a [u8]), Fault> {
        split_entry(bytes)
    }
}

impl<'a> HstoreEntries<'a> {
    /// Returns the next entry: the length of its key in 4 bytes, big-endian, and the key, and
    /// likewise its value, for which every negative length is NULL. A truncated part is refused
    /// with `Size`, a negative length of the key with `KeyLength`, and a text that is not UTF-8
    /// with `Utf8`. Trailing bytes after the last entry are refused with `Size`. After a fault, and
    /// after the last entry, it returns `None` forever. It does not allocate.
    pub fn next(&mut self) -> Option<Result<Entry<'a>, Fault>>
        ensures { TakesEntry self.old result self.new }
    {
        self.items.next()
    }
}

/// Returns the first entry and the bytes after it.
fn split_entry(bytes: &[u8]) -> Result<(Entry<'_>, &[u8]), Fault>
    ensures outcome { Answers (Decodes (StartsWith (λ s e. SpellsEntry s (borrowed_entry e)))
        (λ s. first_fault_of (entry_checks s)) bytes.now) result }
    ensures never_memory { NeverMemory result }
{
    let (key, bytes) = split_text(bytes)?;
    let Some(key) = key else {
        return Err(Fault::KeyLength);
    };
    let (value, bytes) = split_text(bytes)?;
    Ok(((key, value), bytes))
}

/// Returns the first text and the bytes after it. Every negative length is NULL.
fn split_text(bytes: &[u8]) -> Result<(Option<&str>, &[u8]), Fault>
    ensures outcome { Answers (Decodes (StartsWith (λ s text. SpellsText s (cell_of text)))
        (λ s. first_fault_of (value_checks s)) bytes.now) result }
    ensures never_memory { NeverMemory result }
{
    let (cell, bytes) = split_cell(bytes)?;
    let Some(text) = cell else {
        return Ok((None, bytes));
    };
    Ok((Some(text_from_sql(text)?), bytes))
}

/// Appends an hstore (`hstore_send`): the number of its entries in 4 bytes, big-endian, and for
/// each entry, in the order of the slice, the frame of its key and the frame of its value. The
/// frame of NULL is the length -1. It fails with `Transmit` if the number of entries, or the length
/// of a key or a value, exceeds 2,147,483,647.
pub fn hstore_to_sql(
    alloc: Global,
    entries: &[(&str, Option<&str>)],
    out: &mut BytesMut,
) -> Result<(), Fault>
    ensures { Appends (hstore_bytes (map borrowed_entry entries.now)) out.old out.new result }
{
    out.reserve(hstore_len(entries)?)?;
    int4_to_sql(alloc, entries.len() as i32, out)?;
    for (key, value) in entries {
        text_frame_to_sql(alloc, Some(key), out)?;
        text_frame_to_sql(alloc, *value, out)?;
    }
    Ok(())
}

/// Appends the frame of a text (`None` is NULL).
#[inline(always)]
fn text_frame_to_sql(alloc: Global, text: Option<&str>, out: &mut BytesMut) -> Result<(), Fault>
    ensures { Appends (frame (cell_of text.entry)) out.old out.new result }
{
    frame_to_sql(alloc, text.map(|text| text.as_bytes()), out)
}

/// Returns the length of the hstore in bytes.
fn hstore_len(entries: &[(&str, Option<&str>)]) -> Result<usize, Fault>
    ensures { Measures (hstore_bytes (map borrowed_entry entries.now)) result }
{
    if entries.len() > MAX_LEN {
        return Err(Fault::Transmit);
    }
    let mut len = 4;
    for (key, value) in entries {
        len += text_frame_len(Some(key))?;
        len += text_frame_len(*value)?;
    }
    Ok(len)
}

/// Returns the length of the frame of the text.
#[inline(always)]
fn text_frame_len(text: Option<&str>) -> Result<usize, Fault>
    ensures len { Measures (frame (cell_of text.entry)) result }
    ensures short { IfOk result (λ n. n ≤ number_width + max_length) }
{
    frame_len(text.map(|text| text.as_bytes()))
}
