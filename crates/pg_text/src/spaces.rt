//! White space around texts.
ghost use Rattle.std.specs.Prelude.{◌≡◌};
ghost use Rattle.pg_text.specs.Spaces.{trimmed};

/// Returns the text without the white space at its start and at its end.
#[inline(always)]
pub fn trimmed(text: &str) -> &str
    ensures { result.now ≡ trimmed text.now }
{
    text.trim_ascii()
}
