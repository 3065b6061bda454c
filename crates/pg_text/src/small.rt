//! The texts of UUIDs and log sequence numbers.
ghost use Rattle.std.specs.Prelude.{◌≡◌, ◌<◌, ◌^◌, ℕ, length};
ghost use Rattle.std.specs.List.{All};
ghost use Rattle.uuid.specs.Text.{hyphenated_text, lower};
ghost use Rattle.postgres_types.specs.Lsn.{lsn_text};
ghost use Rattle.pg_text.specs.ReadBack.{IsReadBack};
ghost use Rattle.pg_text.specs.Small.{SaysLsn, SaysUuid, is_half};
ghost use Rattle.pg_text.specs.Texts.{SaysAny, Shows};

use crate::digits::push_upper_hex;
use crate::{FromText, ToText, no_value};
use postgres_types::{Fault, PgLsn};
use std::alloc::{AllocError, Global};
use uuid::Uuid;

/// The bytes of the longest text of a UUID: one in five groups and braces.
const MAX_UUID: usize = 38;

/// Writes hexadecimal digits in five groups (`uuid_out`).
impl ToText for Uuid {
    ghost shows = { Shows (hyphenated_text lower) };

    fn to_text(&self, _alloc: Global, out: &mut Vec<u8>) -> Result<(), AllocError> {
        let mut buffer = Uuid::encode_buffer();
        let text = self.hyphenated().encode_lower(&mut buffer);
        out.extend_from_slice(text.as_bytes())
    }
}

/// Parses 32 hexadecimal digits of either case: in five groups, alone, or in groups and braces
/// (`uuid_in`).
impl FromText for Uuid {
    ghost says = { SaysUuid };

    ghost parses = { SaysAny SaysUuid };

    fn from_text(_alloc: Global, text: &str) -> Result<Uuid, Fault> {
        // The server does not take the longer texts, which begin with `urn:uuid:`.
        if text.len() > MAX_UUID {
            return Err(no_value());
        }
        Uuid::try_parse(text).map_err(|_| no_value())
    }
}

/// Writes both halves in upper-case hexadecimal digits, with `/` between them (`pg_lsn_out`).
impl ToText for PgLsn {
    ghost shows = { Shows lsn_text };

    fn to_text(&self, _alloc: Global, out: &mut Vec<u8>) -> Result<(), AllocError> {
        let position = u64::from(*self);
        push_upper_hex(position >> 32, out)?;
        out.push(b'/')?;
        push_upper_hex(position & 0xffff_ffff, out)
    }
}

/// Parses two halves of one to eight hexadecimal digits of either case, with `/` between them
/// (`pg_lsn_in`).
impl FromText for PgLsn {
    ghost says = { SaysLsn };

    ghost parses = { SaysAny SaysLsn };

    fn from_text(_alloc: Global, text: &str) -> Result<PgLsn, Fault> {
        match text.split_once('/') {
            Some((high, low)) if is_half(high) && is_half(low) => {
                text.parse().map_err(|_| no_value())
            }
            _ => Err(no_value()),
        }
    }
}

/// Whether the text has no more than eight bytes, and no sign.
fn is_half(text: &str) -> bool
    ensures { result ≡ is_half text.now }
{
    text.len() <= 8 && !text.starts_with("+")
}

/// The text of a log sequence number says it, and no other.
pub fn lsn_is_read_back()
    ensures { IsReadBack (λ (n : ℕ). n < 2 ^ 64) ⟦<PgLsn as ToText>⟧.shows ⟦<PgLsn as FromText>⟧.says }
{}

/// The text of a UUID says it, and no other.
pub fn uuid_is_read_back()
    ensures { IsReadBack (λ v. (length v ≡ 16) × All (λ b. b < 256) v) ⟦<Uuid as ToText>⟧.shows
        ⟦<Uuid as FromText>⟧.says }
{}
