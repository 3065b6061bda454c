//! The items in the text of an array or of a composite value, between its brackets.
ghost use Rattle.std.specs.Prelude.{◌≡◌, ◌∷◌, ◌++◌, [], ℕ, List, IfOk, MatchOption, MatchResult, Option};
ghost use Rattle.std.specs.Prelude.{false, option_map};
ghost use Rattle.std.specs.Str.{IsUtf8};
ghost use Rattle.pg_text.specs.Items.{EndsAt, NoItem, SaysItem, TakesItem, may_end, needs_quotes, said_after, said_from};
ghost use Rattle.pg_text.specs.Items.{unless_null};

use crate::no_value;
use crate::quotes::{is_null_word, is_space};
use postgres_types::Fault;
use std::alloc::AllocError;

/// The kinds of texts that have items.
#[derive(Debug, Clone, Copy)]
pub enum Items {
    /// An array (`array_in`): an item is quoted as a whole, or contains no white space, brace or
    /// quote, and an item that is the word NULL is NULL.
    OfArray,
    /// A composite value (`record_in`): quotes may begin anywhere in an item, two quotes in quotes
    /// stand for one, and an empty item is NULL.
    OfRecord,
}

/// The state in which a byte of an item is read.
#[derive(Debug, Clone, Copy)]
enum Place {
    /// Before its first byte.
    Start,
    Plain,
    Quoted,
    /// After a quote that ended the quotes or is the first of two.
    Closed,
    /// After a backslash.
    PlainEscaped,
    QuotedEscaped,
}

impl Place {
    /// Whether the item may end here.
    fn may_end(self) -> bool
        ensures { result ≡ may_end self }
    {
        matches!(self, Place::Start | Place::Plain | Place::Closed)
    }
}

/// What a byte means.
#[derive(Debug, Clone, Copy)]
enum Step {
    /// The byte belongs to the item, and this state follows.
    Take(Place),
    /// The byte only changes the state.
    Pass(Place),
    /// The byte ends the item.
    End,
    /// The byte is not allowed here.
    Refuse,
}

impl Items {
    /// Whether the byte is allowed in an item only in quotes or after a backslash.
    fn needs_quotes(self, byte: u8) -> bool
        ensures { result ≡ needs_quotes self byte }
    {
        match self {
            Items::OfArray => byte == b'{' || byte == b'}' || is_space(byte),
            Items::OfRecord => byte == b'(' || byte == b')',
        }
    }

    /// Returns what the byte means in this state.
    fn step(self, place: Place, byte: u8) -> Step
        ensures said { (text : List ℕ) → said_from self place (byte ∷ text) ≡ said_after self byte result text }
        ensures ends { EndsAt place byte result }
    {
        match (place, byte) {
            (Place::PlainEscaped, _) => Step::Take(Place::Plain),
            (Place::QuotedEscaped, _) => Step::Take(Place::Quoted),
            (Place::Quoted, b'"') => Step::Pass(Place::Closed),
            (Place::Quoted, b'\\') => Step::Pass(Place::QuotedEscaped),
            (Place::Quoted, _) => Step::Take(Place::Quoted),
            (_, b',') => Step::End,
            (Place::Plain, b'"') | (Place::Closed, _) if matches!(self, Items::OfArray) =>
                Step::Refuse,
            (Place::Closed, b'"') => Step::Take(Place::Quoted),
            (_, b'"') => Step::Pass(Place::Quoted),
            (_, b'\\') => Step::Pass(Place::PlainEscaped),
            (_, other) if self.needs_quotes(other) => Step::Refuse,
            _ => Step::Take(Place::Plain),
        }
    }

    /// Takes the item at the front of the text, and the comma after it, and sets `out` to the text
    /// that it stands for. Returns `None` if there is no item there; then, and if memory runs out,
    /// `out` has a part of it.
    pub fn next(self, text: &mut &[u8], out: &mut Vec<u8>) -> Result<Option<Item>, AllocError>
        ensures { IfOk result (λ found. MatchOption found (NoItem self text.old.now)
            (λ item. TakesItem self text.old.now text.new.now item.has_comma
            (unless_null item.is_null out.new.items))) }
    {
        out.clear();
        let mut place = Place::Start;
        let bytes = *text;
        for (at, byte) in bytes.iter().enumerate() {
            match self.step(place, *byte) {
                Step::Take(next) => {
                    out.push(*byte)?;
                    place = next;
                }
                Step::Pass(next) => place = next,
                Step::End => {
                    *text = &bytes[at + 1..];
                    return Ok(self.item(&bytes[..at], true));
                }
                Step::Refuse => return Ok(None),
            }
        }
        *text = &[];
        if place.may_end() {
            Ok(self.item(bytes, false))
        } else {
            Ok(None)
        }
    }

    /// Returns the item with this text, or `None` if the text is empty where an item must not be.
    fn item(self, text: &[u8], has_comma: bool) -> Option<Item>
        ensures { MatchOption result ((said : Option (List ℕ)) → SaysItem self text.now said → ⊥)
            (λ item. (item.has_comma ≡ has_comma) × ((said : List ℕ)
            → said_from self Place.Start text.now ≡ Some said
            → SaysItem self text.now (unless_null item.is_null said))) }
    {
        let is_null = match self {
            Items::OfArray if text.is_empty() => return None,
            Items::OfArray => is_null_word(text),
            Items::OfRecord => text.is_empty(),
        };
        Some(Item { is_null, has_comma })
    }
}

/// An item that was taken from a text.
#[derive(Debug, Clone, Copy)]
pub struct Item {
    /// Whether it is NULL.
    pub is_null: bool,
    /// Whether a comma followed it, so that another item comes.
    pub has_comma: bool,
}

/// Returns the text of an item from its bytes; `None` for NULL. Bytes that are not UTF-8 are
/// refused with `User`.
pub fn said(is_null: bool, bytes: &[u8]) -> Result<Option<&str>, Fault>
    ensures { MatchResult result (λ text. option_map (λ t. t.now) text ≡ unless_null is_null bytes.now)
        (λ fault. (is_null ≡ false) × (IsUtf8 bytes.now → ⊥)) }
{
    if is_null {
        return Ok(None);
    }
    match str::from_utf8(bytes) {
        Ok(text) => Ok(Some(text)),
        Err(_) => Err(no_value()),
    }
}

/// Returns the text between its first and its last byte, if these are `first` and `last`.
pub fn between(text: &[u8], first: u8, last: u8) -> Option<&[u8]>
    ensures { MatchOption result ((inside : List ℕ) → text.now ≡ first ∷ (inside ++ last ∷ []) → ⊥)
        (λ inside. text.now ≡ first ∷ (inside.now ++ last ∷ [])) }
{
    match text {
        [a, inside @ .., b] if *a == first && *b == last => Some(inside),
        _ => None,
    }
}
