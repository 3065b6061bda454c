//! The texts of arrays of one dimension, and of vectors of numbers.
ghost use Rattle.std.specs.Prelude.{◌≡◌, ◌||◌, ◌==◌, ◌++◌, ℕ, List, IfSome, OnOk, decimal, length, option_map};
ghost use Rattle.std.specs.Prelude.{[], FitsSigned, MatchResult, Vec, ℤ, ◌<◌, ◌^◌};
ghost use Rattle.std.specs.Int.{w16};
ghost use Rattle.std.specs.Global.{Global};
ghost use Rattle.std.specs.Fmt.{signed_decimal};
ghost use Rattle.std.specs.List.{list_any, All};
ghost use Rattle.pg_base.specs.NumberTexts.{SaysSigned, SaysUnsigned};
ghost use Rattle.pg_types.specs.declared.fault.Fault.TheVariants.{Memory};
ghost use Rattle.pg_text.specs.Lists.{ParsesArray, ParsesVector, SaysArray, SaysValue, SaysVector, ShowsArray};
ghost use Rattle.pg_text.specs.Lists.{ShowsElement, vector_text};
ghost use Rattle.pg_text.specs.Quotes.{element_text, is_array_sign, is_null_word};
ghost use Rattle.pg_text.specs.Spaces.{ParsesPlain, Plain, Trimmed};
ghost use Rattle.pg_text.specs.Texts.{SaysAny, Shows};

use crate::digits::push_number;
use crate::items::{Items, between, said};
use crate::quotes::{Escape, is_escaped, is_null_word, is_space, push_quoted};
use crate::separators::push_separator;
use crate::spaces::trimmed;
use crate::{FromText, ToText, no_value};
use itoa::Integer;
use postgres_types::Fault;
use std::alloc::{AllocError, Global};

/// Appends the elements in braces, with commas between them (`array_out`).
pub fn push_array<T: ToText>(
    alloc: Global,
    elements: &[Option<T>],
    out: &mut Vec<u8>,
) -> Result<(), AllocError>
    ensures { OnOk result (ShowsArray T.shows elements.now out.old.items out.new.items) }
{
    let mut text = Vec::new(alloc);
    out.push(b'{')?;
    for (place, element) in elements.iter().enumerate() {
        push_separator(place, b',', out)?;
        push_item(alloc, element, &mut text, out)?;
    }
    Ok(out.push(b'}')?)
}

/// Appends an element, or NULL; the text of the element is first written to `text`.
fn push_item<T: ToText>(
    alloc: Global,
    element: &Option<T>,
    text: &mut Vec<u8>,
    out: &mut Vec<u8>,
) -> Result<(), AllocError>
    ensures { OnOk result ((item : List ℕ) × ShowsElement T.shows element.now item
        × (out.new.items ≡ out.old.items ++ item)) }
{
    match element {
        None => out.extend_from_slice(b"NULL"),
        Some(value) => {
            text.clear();
            value.to_text(alloc, text)?;
            push_element(text.as_slice(), out)
        }
    }
}

/// Appends the text of an element. It is quoted if it is empty, is the word NULL, or contains white
/// space, a comma, a brace, a quote or a backslash.
pub fn push_element(text: &[u8], out: &mut Vec<u8>) -> Result<(), AllocError>
    ensures { OnOk result (out.new.items ≡ out.old.items ++ element_text text.now) }
{
    if needs_quotes(text) {
        push_quoted(text, Escape::Backslash, out)
    } else {
        out.extend_from_slice(text)
    }
}

/// Whether the text has to be quoted as an element.
fn needs_quotes(text: &[u8]) -> bool
    ensures { result ≡ (length text.now == 0 || is_null_word text.now || list_any is_array_sign text.now) }
{
    text.is_empty() || is_null_word(text) || has_array_sign(text)
}

/// Whether the text contains a byte for which an element is quoted.
fn has_array_sign(text: &[u8]) -> bool
    ensures { result ≡ list_any is_array_sign text.now }
{
    text.iter().any(|byte| is_array_sign(*byte))
}

/// Whether an element that contains the byte is quoted.
fn is_array_sign(byte: u8) -> bool
    ensures { result ≡ is_array_sign byte }
{
    is_escaped(byte) || byte == b'{' || byte == b'}' || byte == b',' || is_space(byte)
}

/// Parses the elements of an array (`array_in`). An array of several dimensions, or with lower
/// bounds, is refused with `User`.
pub fn parse_array<T: FromText>(alloc: Global, text: &str) -> Result<Vec<Option<T>>, Fault>
    ensures { MatchResult result (λ v. SaysArray T.says text.now v.items)
        (λ fault. ParsesArray T.parses text.now → fault ≡ Memory) }
{
    let mut elements = Vec::new(alloc);
    let Some(mut rest) = between(text.as_bytes(), b'{', b'}') else {
        return Err(no_value());
    };
    if rest.is_empty() {
        return Ok(elements);
    }
    let mut element = Vec::new(alloc);
    // Each element but the last takes a byte and a comma.
    for _ in 0..text.len() {
        let Some(item) = Items::OfArray.next(&mut rest, &mut element)? else {
            return Err(no_value());
        };
        let text = said(item.is_null, element.as_slice())?;
        elements.push(parse_element(alloc, text)?)?;
        if !item.has_comma {
            return Ok(elements);
        }
    }
    Err(no_value())
}

/// Parses an element, or NULL.
fn parse_element<T: FromText>(alloc: Global, text: Option<&str>) -> Result<Option<T>, Fault>
    ensures { MatchResult result (SaysValue T.says (option_map (λ t. t.now) text.entry))
        (λ fault. IfSome (option_map (λ t. t.now) text.entry) T.parses → fault ≡ Memory) }
{
    match text {
        None => Ok(None),
        Some(text) => Ok(Some(T::from_text(alloc, text)?)),
    }
}

/// Appends the numbers with spaces between them.
fn push_vector<I: Integer>(numbers: &[I], out: &mut Vec<u8>) -> Result<(), AllocError>
    ensures { OnOk result (out.new.items ≡ out.old.items ++ vector_text I.text numbers.now) }
{
    for (place, number) in numbers.iter().enumerate() {
        push_separator(place, b' ', out)?;
        push_number(*number, out)?;
    }
    Ok(())
}

/// Parses numbers with single spaces between them, and no other white space.
fn parse_vector<T: FromText>(alloc: Global, text: &str) -> Result<Vec<T>, Fault>
    ensures { MatchResult result (λ v. SaysVector (Plain T.says) text.now v.items)
        (λ fault. ParsesVector (ParsesPlain T.parses) text.now → fault ≡ Memory) }
{
    let mut numbers = Vec::new(alloc);
    if text.is_empty() {
        return Ok(numbers);
    }
    for number in text.split(' ') {
        numbers.push(parse_plain(alloc, number)?)?;
    }
    Ok(numbers)
}

/// Parses a number that has no white space around it.
fn parse_plain<T: FromText>(alloc: Global, text: &str) -> Result<T, Fault>
    ensures { MatchResult result (Plain T.says text.now)
        (λ fault. ParsesPlain T.parses text.now → fault ≡ Memory) }
{
    if trimmed(text) != text {
        return Err(no_value());
    }
    T::from_text(alloc, text)
}

/// Writes the numbers with spaces between them (`int2vectorout`).
impl ToText for Vec<i16> {
    ghost shows = { Shows (λ v. vector_text signed_decimal v.items) };

    fn to_text(&self, _alloc: Global, out: &mut Vec<u8>) -> Result<(), AllocError> {
        push_vector(self.as_slice(), out)
    }
}

impl FromText for Vec<i16> {
    ghost says = { λ text v. SaysVector (Plain (Trimmed SaysSigned)) text v.items };

    ghost parses = { SaysAny (SaysVector (Plain (Trimmed (λ text n. SaysSigned text n × FitsSigned w16 n)))) };

    fn from_text(alloc: Global, text: &str) -> Result<Vec<i16>, Fault> {
        parse_vector(alloc, text)
    }
}

/// Writes the numbers with spaces between them (`oidvectorout`).
impl ToText for Vec<u32> {
    ghost shows = { Shows (λ v. vector_text decimal v.items) };

    fn to_text(&self, _alloc: Global, out: &mut Vec<u8>) -> Result<(), AllocError> {
        push_vector(self.as_slice(), out)
    }
}

impl FromText for Vec<u32> {
    ghost says = { λ text v. SaysVector (Plain (Trimmed SaysUnsigned)) text v.items };

    ghost parses = { SaysAny (SaysVector (Plain (Trimmed (λ text n. SaysUnsigned text n × (n < 2 ^ 32))))) };

    fn from_text(alloc: Global, text: &str) -> Result<Vec<u32>, Fault> {
        parse_vector(alloc, text)
    }
}

/// The text of an INT2VECTOR says its numbers.
pub fn int2vector_says_its_numbers()
    ensures { (v : Vec ℤ Global) (text : List ℕ) → All (FitsSigned w16) v.items
        → ⟦<Vec<i16> as ToText>⟧.shows v [] text → ⟦<Vec<i16> as FromText>⟧.says text v }
{}

/// The text of an OIDVECTOR says its numbers.
pub fn oidvector_says_its_numbers()
    ensures { (v : Vec ℕ Global) (text : List ℕ) → All (λ n. n < 2 ^ 32) v.items
        → ⟦<Vec<u32> as ToText>⟧.shows v [] text → ⟦<Vec<u32> as FromText>⟧.says text v }
{}
