//! The texts of maps.
ghost use Rattle.std.specs.Prelude.{◌≡◌, ◌++◌, IfOk, OnOk, map};
ghost use Rattle.std.specs.List.Sorted.{IsPermutation, IsSortedByKey};
ghost use Rattle.postgres_types.specs.Hstore.{borrowed_entry, owned_entry};
ghost use Rattle.pg_text.specs.Maps.{ShowsMap, comma_at, entries_text, entry_text, key_order};

use crate::quotes::{Escape, push_quoted};
use crate::scanner::Scanner;
use crate::{FromText, ToText, no_value};
use postgres_types::Fault;
use std::alloc::{AllocError, Global};
use std::collections::HashMap;

/// The Rust type of an hstore.
pub type Map = HashMap<String, Option<String>>;

/// The key of an entry, and its value (`None` is NULL).
type Entry<'a> = (&'a str, Option<&'a str>);

/// Writes the entries like `"k"=>"v", "n"=>NULL` (`hstore_out`), in the order of hstore: shorter
/// keys first, and keys of the same length in the order of their bytes.
impl ToText for Map {
    ghost shows = { λ m. ShowsMap (map owned_entry m.entries) };

    fn to_text(&self, alloc: Global, out: &mut Vec<u8>) -> Result<(), AllocError> {
        let entries = sorted_entries(alloc, self)?;
        push_entries(entries.as_slice(), out)
    }
}

/// Returns the entries of the map in the order of hstore.
fn sorted_entries<'a>(alloc: Global, store: &'a Map) -> Result<Vec<Entry<'a>>, AllocError>
    ensures permutation { IfOk result (λ v.
        IsPermutation (map owned_entry store.now.entries) (map borrowed_entry v.items)) }
    ensures sorted { IfOk result (λ v. IsSortedByKey (λ e. e.0) key_order (map borrowed_entry v.items)) }
{
    let mut entries = Vec::with_capacity(alloc, store.len())?;
    for (key, value) in store.iter() {
        let value = value.as_ref().map(|text| text.as_str());
        entries.push((key.as_str(), value))?;
    }
    entries.sort_unstable_by_key(|entry| (entry.0.len(), entry.0));
    Ok(entries)
}

/// Appends the entries with a comma and a space between them.
fn push_entries(entries: &[Entry<'_>], out: &mut Vec<u8>) -> Result<(), AllocError>
    ensures { OnOk result (out.new.items ≡ out.old.items ++ entries_text (map borrowed_entry entries.now)) }
{
    for (place, entry) in entries.iter().enumerate() {
        push_comma(place, out)?;
        push_entry(*entry, out)?;
    }
    Ok(())
}

/// Appends a comma and a space before each entry but the first.
fn push_comma(place: usize, out: &mut Vec<u8>) -> Result<(), AllocError>
    ensures { OnOk result (out.new.items ≡ out.old.items ++ comma_at place) }
{
    if place > 0 {
        out.extend_from_slice(b", ")
    } else {
        Ok(())
    }
}

/// Appends a key and its value.
fn push_entry(pair: Entry<'_>, out: &mut Vec<u8>) -> Result<(), AllocError>
    ensures { OnOk result (out.new.items ≡ out.old.items ++ entry_text (borrowed_entry pair.entry)) }
{
    push_quoted(pair.0.as_bytes(), Escape::Backslash, out)?;
    out.extend_from_slice(b"=>")?;
    match pair.1 {
        Some(value) => push_quoted(value.as_bytes(), Escape::Backslash, out),
        None => out.extend_from_slice(b"NULL"),
    }
}

impl FromText for Map {
    fn from_text(alloc: Global, text: &str) -> Result<Map, Fault> {
        let mut map = HashMap::new(alloc);
        let mut scanner = Scanner::new(text);
        if scanner.is_done() {
            return Ok(map);
        }
        for _ in 0..text.len() {
            let key = take_text(alloc, &mut scanner)?;
            if !scanner.take(b"=>") {
                return Err(no_value());
            }
            let value = if scanner.take(b"NULL") {
                None
            } else {
                Some(take_text(alloc, &mut scanner)?)
            };
            drop(map.insert(key, value)?);
            if scanner.is_done() {
                return Ok(map);
            }
            if !scanner.take(b", ") {
                return Err(no_value());
            }
        }
        Err(no_value())
    }
}

/// Takes a quoted text.
fn take_text(alloc: Global, scanner: &mut Scanner<'_>) -> Result<String, Fault> {
    let mut text = Vec::new(alloc);
    match scanner.quoted(&mut text)? {
        Some(()) => String::from_utf8(text).map_err(|_| no_value()),
        None => Err(no_value()),
    }
}
