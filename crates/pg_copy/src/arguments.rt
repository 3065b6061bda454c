//! The command line: options, and the types of the columns.
ghost use Rattle.std.specs.List.{AllZip};
ghost use Rattle.std.specs.Prelude.{◌≡◌, ◌∷◌, ◌++◌, [], IfErr, IfOk, OnOk, string_bytes};
ghost use Rattle.std.specs.Str.{trim};
ghost use Rattle.pg_copy.specs.Arguments.{AreRefused, IsLeft, IsNamed, IsRefused, IsRequest, TakesType, first_word};
ghost use Rattle.pg_copy.specs.Arguments.{texts_of, types_of_word, types_of_words};
ghost use Rattle.pg_copy.specs.ColumnTypes.{IsColumnOf};
ghost use Rattle.pg_copy.specs.declared.arguments.ArgumentFault.TheVariants.{Memory};
ghost use Rattle.pg_copy.specs.declared.arguments.RefusedType.{RefusedType};

use crate::columns::{Column, TypeFault};
use crate::type_names::split_at_comma;
use std::alloc::{AllocError, AllocFailed, Global};
use std::error::Error;
use std::fmt;

/// The greatest number of columns of a COPY: it is a signed number of two bytes.
const MAX_COLUMNS: usize = 32_767;

/// What a command line asks for.
#[derive(Debug, Drop)]
pub enum Request {
    /// `--help`.
    Help,
    /// A COPY with these columns, of which there is at least one.
    Copy(Vec<Column>),
}

/// Why a command line is refused.
#[derive(Debug, Drop)]
pub enum ArgumentFault {
    /// No type is given.
    NoType,
    /// There are more types than a COPY can have columns.
    TooManyTypes,
    /// Types that are not those of columns, in their order; there is at least one.
    Types(Vec<RefusedType>),
    /// There is no such option.
    UnknownOption(String),
    /// An allocation failed.
    Memory,
}

/// A type that is not that of a column.
#[derive(Debug, Drop)]
pub struct RefusedType {
    /// The number of its column, counted from 1.
    pub number: usize,
    /// Its name, without the white space around it.
    pub name: String,
    /// Whether it is not taken because a composite type stands within another; otherwise it has no
    /// conversion.
    pub is_nested: bool,
}

impl fmt::Display for RefusedType {
    fn fmt<W: fmt::Write>(&self, f: &mut fmt::Formatter<W>) -> fmt::Result {
        let RefusedType {
            number,
            name,
            is_nested,
        } = self;
        let note = note_on(name.as_str(), *is_nested);
        write!(f, "column {number}: {name}{note}")
    }
}

/// Returns what is told of a type beside its name: what to write instead, where that is known.
fn note_on(name: &str, is_nested: bool) -> &'static str {
    match name {
        _ if is_nested => " (a composite type within another)",
        "" => "no type before a comma",
        "double" | "float" => " (write double precision)",
        _ if name.contains("  ") => " (write one space between words)",
        _ if name.ends_with(" array") => " (write [] after the type of the elements)",
        _ => "",
    }
}

/// What is told before the types that are not taken.
const TYPES: &str = "\
no conversion of these types; an enumerated type is named enum, a domain by its base type, a composite type by its
fields, and any column may be raw, the bytes of its cells; scripts/columns prints the types of a table:";

impl fmt::Display for ArgumentFault {
    fn fmt<W: fmt::Write>(&self, f: &mut fmt::Formatter<W>) -> fmt::Result {
        match self {
            ArgumentFault::NoType => write!(f, "no type is given; --help says how"),
            ArgumentFault::TooManyTypes => write!(f, "more than 32767 types are given"),
            ArgumentFault::Types(types) => {
                write!(f, "{TYPES}")?;
                for ty in types {
                    write!(f, "\n{ty}")?;
                }
                Ok(())
            }
            ArgumentFault::UnknownOption(name) => write!(f, "no option {name}; --help says which"),
            ArgumentFault::Memory => write!(f, "out of memory"),
        }
    }
}

impl Error for ArgumentFault {}

impl From<AllocError> for ArgumentFault {
    ghost from_gives = { λ _ fault. fault ≡ Memory };

    fn from(_error: AllocError) -> ArgumentFault {
        ArgumentFault::Memory
    }
}

impl<T: Drop> From<AllocFailed<T>> for ArgumentFault {
    ghost from_gives = { λ _ fault. fault ≡ Memory };

    fn from(_error: AllocFailed<T>) -> ArgumentFault {
        ArgumentFault::Memory
    }
}

/// Parses the words of a command line, without the name of the program: `--help`, or the types of
/// the columns. A word may have several types with commas between them.
pub fn parse(alloc: Global, words: &[String]) -> Result<Request, ArgumentFault>
    ensures ok { IfOk result (IsRequest words.now) }
    ensures err { IfErr result (IsRefused words.now) }
{
    let first = first_word(words);
    if first == "--help" {
        return Ok(Request::Help);
    }
    if first.starts_with('-') {
        return Err(ArgumentFault::UnknownOption(String::from_str(alloc, first)?));
    }
    let types = types_of(alloc, words)?;
    if types.is_empty() {
        return Err(ArgumentFault::NoType);
    }
    if types.len() > MAX_COLUMNS {
        return Err(ArgumentFault::TooManyTypes);
    }
    Ok(Request::Copy(columns_of(alloc, types.as_slice())?))
}

/// Returns the first word, or an empty text if there is none.
fn first_word(words: &[String]) -> &str
    ensures { result.now ≡ first_word words.now }
{
    match words.first() {
        Some(word) => word.as_str(),
        None => "",
    }
}

/// Returns the types in the words.
fn types_of<'a>(alloc: Global, words: &'a [String]) -> Result<Vec<&'a str>, AllocError>
    ensures { IfOk result (λ types. texts_of types.items ≡ types_of_words words.now) }
{
    let mut types = Vec::new(alloc);
    for word in words {
        push_types(word.as_str(), &mut types)?;
    }
    Ok(types)
}

/// Appends the types in a word. The last one may have a comma after it.
fn push_types<'a>(word: &'a str, types: &mut Vec<&'a str>) -> Result<(), AllocError>
    ensures { OnOk result (texts_of types.new.items ≡ texts_of types.old.items ++ types_of_word word.now) }
{
    let mut rest = not_blank(word);
    while let Some(left) = rest {
        let (ty, after) = split_at_comma(left);
        types.push(ty)?;
        rest = after.and_then(not_blank);
    }
    Ok(())
}

/// Returns the text if it is more than white space.
fn not_blank(text: &str) -> Option<&str>
    ensures { IsLeft text.now result }
{
    if text.trim().is_empty() {
        None
    } else {
        Some(text)
    }
}

/// Returns the columns of the types. Where some are not taken, all of these are told.
fn columns_of(alloc: Global, types: &[&str]) -> Result<Vec<Column>, ArgumentFault>
    ensures ok { IfOk result (λ columns. AllZip IsColumnOf (texts_of types.now) columns.items) }
    ensures err { IfErr result (AreRefused (texts_of types.now)) }
{
    let mut columns = Vec::new(alloc);
    let mut refused = Vec::new(alloc);
    for (place, ty) in types.iter().enumerate() {
        push_type(alloc, place + 1, ty, &mut columns, &mut refused)?;
    }
    if refused.is_empty() {
        Ok(columns)
    } else {
        Err(ArgumentFault::Types(refused))
    }
}

/// Appends the column of the type with this number, or why it has none.
fn push_type(
    alloc: Global,
    number: usize,
    ty: &&str,
    columns: &mut Vec<Column>,
    refused: &mut Vec<RefusedType>,
) -> Result<(), AllocError>
    ensures { OnOk result (TakesType number ty.now.now columns.old.items refused.old.items columns.new.items
        refused.new.items) }
{
    let text = *ty;
    match Column::parse(alloc, text) {
        Ok(column) => Ok(columns.push(column)?),
        Err(TypeFault::Unknown) => push_refused(alloc, number, text, false, refused),
        Err(TypeFault::Nested) => push_refused(alloc, number, text, true, refused),
        Err(TypeFault::Memory) => Err(AllocError),
    }
}

/// Appends a type that is not taken.
fn push_refused(
    alloc: Global,
    number: usize,
    text: &str,
    is_nested: bool,
    refused: &mut Vec<RefusedType>,
) -> Result<(), AllocError>
    ensures { OnOk result ((ty : RefusedType) × IsNamed number text.now is_nested ty
        × (refused.new.items ≡ refused.old.items ++ ty ∷ [])) }
{
    let name = trimmed(alloc, text)?;
    Ok(refused.push(RefusedType {
        number,
        name,
        is_nested,
    })?)
}

/// Copies the text without the white space around it.
fn trimmed(alloc: Global, text: &str) -> Result<String, AllocError>
    ensures { IfOk result (λ copy. string_bytes copy ≡ trim text.now) }
{
    String::from_str(alloc, text.trim())
}
