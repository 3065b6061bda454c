//! A name of a type: a base name and a form.
ghost use Rattle.std.specs.Prelude.{◌≡◌, option_map};
ghost use Rattle.named_types.specs.Names.{form_of, is_array as is_array_form, name_of, picked};

use crate::base::Base;

/// The form of a name: what follows its base name.
#[derive(Debug, Clone, Copy, PartialEq, Eq)]
pub enum Form {
    /// Nothing: the types of the base name.
    Plain,
    /// `?`: an `Option` of the Rust type, with the same Postgres type.
    Optional,
    /// `[]`: a `Vec` of the Rust type, with the Postgres type of its arrays.
    Array,
    /// `?[]`: a `Vec` of `Option`s of the Rust type, with the Postgres type of its arrays.
    OptionalArray,
}

/// A base name and a form, which may be one of arrays even if the base name has none.
#[derive(Debug, Clone, Copy, PartialEq, Eq)]
pub struct Name {
    pub base: Base,
    pub form: Form,
}

impl Form {
    /// Returns the bytes of the base name, and the form that follows them.
    fn parse(word: &[u8]) -> (&[u8], Form)
        ensures { (result.0.now, result.1) ≡ form_of word.now }
    {
        if word.ends_with(b"?[]") {
            (&word[..word.len() - 3], Form::OptionalArray)
        } else if word.ends_with(b"[]") {
            (&word[..word.len() - 2], Form::Array)
        } else if word.ends_with(b"?") {
            (&word[..word.len() - 1], Form::Optional)
        } else {
            (word, Form::Plain)
        }
    }

    /// Whether the form is one of arrays.
    pub fn is_array(self) -> bool
        ensures { result ≡ is_array_form self }
    {
        matches!(self, Form::Array | Form::OptionalArray)
    }

    /// Returns the type for this form, given the type of a base name and the type of its arrays.
    /// Returns `None` if the form is one of arrays and the base name has none.
    pub fn pick<T: Drop>(self, own: T, arrays: Option<T>) -> Option<T>
        ensures { result ≡ picked self own arrays }
    {
        match self {
            Form::Plain | Form::Optional => Some(own),
            Form::Array | Form::OptionalArray => arrays,
        }
    }
}

impl Name {
    /// Returns the name that the word is, or `None` if it does not begin with a base name.
    pub fn parse(word: &[u8]) -> Option<Name>
        ensures { result ≡ name_of word.now }
    {
        let (bytes, form) = Form::parse(word);
        let base = Base::parse(bytes)?;
        Some(Name { base, form })
    }
}
