//! Quoted texts within a text of several values.
ghost use Rattle.std.specs.Prelude.{◌≡◌, ◌++◌, OnOk};
ghost use Rattle.pg_text.specs.Quotes.{escape_of, escaped, is_escaped, is_null_word, is_space, quoted};

use std::alloc::AllocError;

/// How a quote or a backslash is escaped within quotes.
#[derive(Debug, Clone, Copy)]
pub enum Escape {
    /// A backslash precedes it, as in arrays and hstore.
    Backslash,
    /// It is written twice, as in composite values.
    Twice,
}

impl Escape {
    /// Returns the byte that precedes this one.
    fn before(self, byte: u8) -> u8
        ensures { result ≡ escape_of self byte }
    {
        match self {
            Escape::Backslash => b'\\',
            Escape::Twice => byte,
        }
    }
}

/// Appends the text in double quotes.
pub fn push_quoted(text: &[u8], escape: Escape, out: &mut Vec<u8>) -> Result<(), AllocError>
    ensures { OnOk result (out.new.items ≡ out.old.items ++ quoted escape text.now) }
{
    out.push(b'"')?;
    for byte in text {
        push_escaped(*byte, escape, out)?;
    }
    Ok(out.push(b'"')?)
}

/// Appends a byte within quotes.
fn push_escaped(byte: u8, escape: Escape, out: &mut Vec<u8>) -> Result<(), AllocError>
    ensures { OnOk result (out.new.items ≡ out.old.items ++ escaped escape byte) }
{
    if !is_escaped(byte) {
        return Ok(out.push(byte)?);
    }
    out.push(escape.before(byte))?;
    Ok(out.push(byte)?)
}

/// Whether the byte is a quote or a backslash.
pub fn is_escaped(byte: u8) -> bool
    ensures { result ≡ is_escaped byte }
{
    byte == b'"' || byte == b'\\'
}

/// Whether PostgreSQL takes the byte as white space.
pub fn is_space(byte: u8) -> bool
    ensures { result ≡ is_space byte }
{
    byte == b' ' || byte >= b'\t' && byte <= b'\r'
}

/// Whether the text is the word NULL, in upper or lower case.
pub fn is_null_word(text: &[u8]) -> bool
    ensures { result ≡ is_null_word text.now }
{
    text.eq_ignore_ascii_case(b"null")
}
