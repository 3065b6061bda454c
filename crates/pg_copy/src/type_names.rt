//! The names of types, as PostgreSQL prints them (`format_type`).
ghost use Rattle.std.specs.Prelude.{◌≡◌, ◌+◌, ◌<◌, ◌^◌, ◌∷◌, IfNone, IfOk, false, option_map, string_bytes};
ghost use Rattle.std.specs.Str.{trim, trim_start};
ghost use Rattle.pg_copy.specs.TypeNames.{IsTypeText, between, is_modifier, plain_type, type_named};
ghost use Rattle.pg_copy.specs.TypeNames.{without_modifier, without_schema};
ghost use Rattle.pg_copy.specs.Words.{IsCommaOf, after_name, after_quotes, after_space, depth_after, divides};
ghost use Rattle.pg_copy.specs.Words.{is_quoted_after, pieces, pieces_of_rest};

use crate::types::Base;
use std::alloc::{AllocError, Global};

/// A type as it is written: a name, or the fields of a composite type, followed by `[]` for an
/// array.
#[derive(Debug, Clone, Copy)]
pub struct TypeName<'a> {
    /// The name, or the fields in parentheses.
    pub name: &'a str,
    /// Whether it is an array type, for any number of dimensions.
    pub is_array: bool,
}

impl<'a> TypeName<'a> {
    /// Splits the text of a type into its parts.
    pub fn parse(text: &'a str) -> TypeName<'a>
        ensures { IsTypeText result.name.now result.is_array (trim text.now) }
    {
        let mut name = text.trim();
        let mut is_array = false;
        while let Some(before) = name.strip_suffix("[]") {
            name = before.trim_end();
            is_array = true;
        }
        TypeName { name, is_array }
    }

    /// Returns the fields of a composite type, without the parentheses, or `None` for a name.
    pub fn fields(&self) -> Option<&'a str>
        ensures { option_map (λ s. s.now) result ≡ between 40 41 self.now.name.now }
    {
        self.name.strip_prefix('(')?.strip_suffix(')')
    }

    /// Returns the type with this name, or `None` if it has no conversion.
    pub fn base(&self, alloc: Global) -> Result<Option<Base>, AllocError>
        ensures { IfOk result (λ base. base ≡ type_named self.now.name.now) }
    {
        let Some(mut name) = without_modifier(alloc, self.name)? else {
            return Ok(None);
        };
        name.make_ascii_lowercase();
        Ok(base_of(without_schema(name.as_str())))
    }
}

/// Returns the type with this name, which is in lower case, without a schema or a modifier.
fn base_of(name: &str) -> Option<Base>
    ensures { result ≡ plain_type name.now }
{
    // The name may have fields, like `interval day to second`.
    if name.starts_with("interval ") {
        return Some(Base::Interval);
    }
    match Base::parse(name) {
        Some(base) => Some(base),
        // "bit" is quoted if it has no modifier.
        None => Base::parse(unquoted(name)?),
    }
}

/// Returns the name without its schema.
fn without_schema(name: &str) -> &str
    ensures { result.now ≡ without_schema name.now }
{
    match name.rsplit_once('.') {
        Some((_, name)) => name,
        None => name,
    }
}

/// Returns the name without its quotes.
fn unquoted(name: &str) -> Option<&str>
    ensures { option_map (λ s. s.now) result ≡ between 34 34 name.now }
{
    name.strip_prefix('"')?.strip_suffix('"')
}

/// Returns the name without the modifier in parentheses, like that of
/// `timestamp(3) with time zone`; `None` if a parenthesis is not closed, or has no modifier in it.
fn without_modifier(alloc: Global, name: &str) -> Result<Option<String>, AllocError>
    ensures { IfOk result (λ plain. option_map string_bytes plain ≡ without_modifier name.now) }
{
    let Some((before, rest)) = name.split_once('(') else {
        return Ok(Some(String::from_str(alloc, name)?));
    };
    let Some((modifier, after)) = rest.split_once(')') else {
        return Ok(None);
    };
    if !is_modifier(modifier) {
        return Ok(None);
    }
    let mut plain = String::from_str(alloc, before.trim_end())?;
    plain.push_str(after)?;
    Ok(Some(plain))
}

/// Whether the text may be a modifier, like that of `numeric(4,-2)`.
fn is_modifier(text: &str) -> bool
    ensures { result ≡ is_modifier text.now }
{
    let mut bytes = text.as_bytes().iter();
    bytes.all(|byte| byte.is_ascii_digit() || matches!(byte, b'-' | b',' | b' '))
}

/// Returns the text before the first comma that is outside parentheses and double quotes, and the
/// text after it.
pub fn split_at_comma(text: &str) -> (&str, Option<&str>)
    ensures parts { pieces text.now ≡ result.0.now ∷ pieces_of_rest result.1 }
    ensures whole { IfNone result.1 (result.0.now ≡ text.now) }
{
    match comma_of(text.as_bytes()) {
        Some(place) => (&text[..place], Some(&text[place + 1..])),
        None => (text, None),
    }
}

/// Returns the place of the first comma that is outside parentheses and double quotes.
fn comma_of(text: &[u8]) -> Option<usize>
    ensures { IsCommaOf text.now result }
{
    let mut depth: usize = 0;
    let mut is_quoted = false;
    'bytes: for (place, byte) in text.iter().enumerate() {
        if divides(*byte, depth, is_quoted) {
            return Some(place);
        }
        depth = depth_after(*byte, depth, is_quoted);
        is_quoted = is_quoted_after(*byte, is_quoted);
    }
    None
}

/// Whether the byte is a comma outside parentheses and double quotes.
fn divides(byte: u8, depth: usize, is_quoted: bool) -> bool
    ensures { result ≡ divides byte depth is_quoted }
{
    byte == b',' && depth == 0 && !is_quoted
}

/// Returns within how many parentheses the text after a byte is.
fn depth_after(byte: u8, depth: usize, is_quoted: bool) -> usize
    requires { depth + 1 < 2 ^ 64 }
    ensures { result ≡ depth_after byte depth is_quoted }
{
    match byte {
        b'(' if !is_quoted => depth + 1,
        b')' if !is_quoted => depth.saturating_sub(1),
        _ => depth,
    }
}

/// Whether the text after a byte is within double quotes.
fn is_quoted_after(byte: u8, is_quoted: bool) -> bool
    ensures { result ≡ is_quoted_after byte is_quoted }
{
    if byte == b'"' { !is_quoted } else { is_quoted }
}

/// Returns the text after the name of a field of a composite type, which is in double quotes or
/// ends at a space; `None` if there is none.
pub fn after_field_name(field: &str) -> Option<&str>
    ensures { option_map (λ s. s.now) result ≡ after_name (trim_start field.now) }
{
    let field = field.trim_start();
    match field.strip_prefix('"') {
        Some(quoted) => after_quotes(quoted),
        None => after_space(field),
    }
}

/// Returns the text after the first space.
fn after_space(text: &str) -> Option<&str>
    ensures { option_map (λ s. s.now) result ≡ after_space text.now }
{
    let (_, after) = text.split_once(' ')?;
    Some(after)
}

/// Returns the text after the quote that ends a name, in which two quotes are one.
fn after_quotes(text: &str) -> Option<&str>
    ensures { option_map (λ s. s.now) result ≡ after_quotes false text.now }
{
    let mut quoted = text;
    while let Some((_, after)) = quoted.split_once('"') {
        match after.strip_prefix('"') {
            Some(rest) => quoted = rest,
            None => return Some(after),
        }
    }
    None
}
