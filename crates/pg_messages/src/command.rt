//! The tag of a command that ended.
ghost use Rattle.std.specs.Prelude.{MatchOption, ℕ};
ghost use Rattle.pg_messages.specs.Commands.{IsNumber, IsRowCount};

use memchr::memrchr;

/// Returns the number of rows that the command returned or changed, by the tag of its
/// CommandComplete message: the integer after the last space, as in `SELECT 5`, `INSERT 0 1` or
/// `COPY 7`. `None` if there is none, as in `CREATE TABLE`.
pub fn row_count(tag: &str) -> Option<u64>
    ensures { MatchOption result ((n : ℕ) → IsRowCount tag.now n → ⊥) (IsRowCount tag.now) }
{
    let bytes = tag.as_bytes();
    match memrchr(b' ', bytes) {
        Some(space) => parse_number(&bytes[space + 1..]),
        None => None,
    }
}

/// Returns the number that the word has in decimal digits, or `None` if it has none.
fn parse_number(word: &[u8]) -> Option<u64>
    ensures { MatchOption result ((n : ℕ) → IsNumber word.now n → ⊥) (IsNumber word.now) }
{
    if word.starts_with(b"+") {
        return None;
    }
    match str::from_utf8(word) {
        Ok(digits) => digits.parse().ok(),
        Err(_) => None,
    }
}
