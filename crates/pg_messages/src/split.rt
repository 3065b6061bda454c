//! The fields of a message, taken off the front of its bytes.
ghost use Rattle.std.specs.Prelude.{◌≡◌, IfSome};
ghost use Rattle.std.specs.Int.{w32};
ghost use Rattle.pg_base.specs.Cells.{IsBe};
ghost use Rattle.pg_base.specs.Counts.{StartsWith};
ghost use Rattle.pg_messages.specs.Reading.{byte_at, count_at, int2_at, int4_at, now_of, oid_at, string_at};

use pg_base::protocol::split_number;
use pg_types::types::Oid;
use streams::split::split_once;

/// Returns the first byte, and the bytes after it; `None` if there is none.
pub fn split_byte(bytes: &[u8]) -> Option<(u8, &[u8])>
    ensures { now_of (λ n. n) result ≡ byte_at bytes.now }
{
    match bytes {
        [byte, rest @ ..] => Some((*byte, rest)),
        [] => None,
    }
}

/// Returns the unsigned integer in the first 2 bytes, and the bytes after it; `None` if there are
/// fewer.
pub fn split_count(bytes: &[u8]) -> Option<(u16, &[u8])>
    ensures { now_of (λ n. n) result ≡ count_at bytes.now }
{
    let (number, rest) = bytes.split_first_chunk::<2>()?;
    Some((u16::from_be_bytes(*number), rest))
}

/// Returns the integer in the first 2 bytes, and the bytes after it; `None` if there are fewer.
pub fn split_int2(bytes: &[u8]) -> Option<(i16, &[u8])>
    ensures { now_of (λ z. z) result ≡ int2_at bytes.now }
{
    let (number, rest) = bytes.split_first_chunk::<2>()?;
    Some((i16::from_be_bytes(*number), rest))
}

/// Returns the OID in the first 4 bytes, and the bytes after it; `None` if there are fewer.
pub fn split_oid(bytes: &[u8]) -> Option<(Oid, &[u8])>
    ensures { now_of (λ n. n) result ≡ oid_at bytes.now }
{
    let (number, rest) = bytes.split_first_chunk::<4>()?;
    Some((u32::from_be_bytes(*number), rest))
}

/// Returns the integer in the first 4 bytes, and the bytes after it; `None` if there are fewer.
pub fn split_int4(bytes: &[u8]) -> Option<(i32, &[u8])>
    ensures number { now_of (λ z. z) result ≡ int4_at bytes.now }
    ensures front { IfSome result (λ p. StartsWith (IsBe w32) bytes.now p) }
{
    match split_number(bytes) {
        Ok((number, rest)) => Some((number, rest)),
        Err(_) => None,
    }
}

/// Returns the text before the first zero byte, and the bytes after that; `None` if there is no
/// zero byte, or if the text is not UTF-8.
pub fn split_string(bytes: &[u8]) -> Option<(&str, &[u8])>
    ensures { now_of (λ text. text.now) result ≡ string_at bytes.now }
{
    let Some((text, rest)) = split_once(bytes, 0) else {
        return None;
    };
    match str::from_utf8(text) {
        Ok(text) => Some((text, rest)),
        Err(_) => None,
    }
}
