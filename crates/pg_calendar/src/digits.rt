//! The decimal digits of numbers below a million.
ghost use Rattle.std.specs.Prelude.{◌≡◌, ◌≤◌, ◌-◌, ◌==◌, ◌∷◌, [], MatchOption, length};
ghost use Rattle.std.specs.List.{suffix_len};
ghost use Rattle.pg_calendar.specs.Texts.{padded_text};

/// Returns the two digits of a number, padded with a zero; `None` if it has more digits.
pub fn two_digits(number: u32) -> Option<(u8, u8)>
    ensures { MatchOption result (100 ≤ number) (λ digits. padded_text 2 number ≡ digits.0 ∷ digits.1 ∷ []) }
{
    if number < 100 {
        Some((b'0' + (number / 10) as u8, b'0' + (number % 10) as u8))
    } else {
        None
    }
}

/// Returns the six digits of a number, padded with zeros; `None` if it has more digits.
pub fn six_digits(number: u32) -> Option<[u8; 6]>
    ensures { MatchOption result (1_000_000 ≤ number) (λ digits. digits ≡ padded_text 6 number) }
{
    let (d0, d1) = two_digits(number / 10_000)?;
    let (d2, d3) = two_digits(number / 100 % 100)?;
    let (d4, d5) = two_digits(number % 100)?;
    Some([d0, d1, d2, d3, d4, d5])
}

/// Returns the length of the text without its trailing zeros.
pub fn len_without_zeros(text: &[u8]) -> usize
    ensures value { result ≡ length text.now - suffix_len (λ c. c == 48) text.now }
    ensures bound { result ≤ length text.now }
{
    let mut len = text.len();
    while len > 0 && text[len - 1] == b'0' {
        len -= 1;
    }
    len
}
