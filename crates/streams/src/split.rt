//! Splitting bytes at a separator.
ghost use Rattle.std.specs.Prelude.{◌≡◌, ◌∷◌, ◌+◌, ◌≤◌, ◌++◌, IfSome, IfNone, length};
ghost use Rattle.memchr.specs.Find.{IsFirst, IsFirstByte, Passes, is_byte};
ghost use Rattle.streams.specs.Lines.{Lacks};

use memchr::memchr;
use std::simd::prelude::*;

/// Returns the bytes before the first separator and those after it, or `None` if there is no
/// separator.
pub fn split_once(bytes: &[u8], separator: u8) -> Option<(&[u8], &[u8])>
    ensures some { IfSome result (λ p. Lacks separator p.0.now × (bytes.now ≡ p.0.now ++ separator ∷ p.1.now)) }
    ensures none { IfNone result (Lacks separator bytes.now) }
{
    let end = find(bytes, separator)?;
    Some((&bytes[..end], &bytes[end + 1..]))
}

/// Returns the index of the first separator. Fields and texts of messages are short, and `memchr`
/// looks at fewer than 32 bytes one by one.
fn find(bytes: &[u8], separator: u8) -> Option<usize>
    ensures { IsFirstByte (is_byte separator) bytes.now result }
{
    if bytes.len() < 16 {
        return memchr(separator, bytes);
    }
    let last = bytes.len() - 16;
    let mut at = 0;
    'bytes: while at < last {
        if let Some(place) = first_of_16(bytes, at, separator) {
            return Some(place);
        }
        at += 16;
    }
    first_of_16(bytes, last, separator)
}

/// Returns the index of the first separator among 16 bytes from an index on.
#[inline(always)]
fn first_of_16(bytes: &[u8], at: usize, separator: u8) -> Option<usize>
    requires { at + 16 ≤ length bytes.now }
    ensures { IsFirst (Passes (is_byte separator) bytes.now) at (at + 16) result }
{
    let lanes = u8x16::from_slice(&bytes[at..]);
    let mask = lanes.simd_eq(u8x16::splat(separator)).to_bitmask();
    if mask == 0 {
        return None;
    }
    Some(at + mask.trailing_zeros() as usize)
}
