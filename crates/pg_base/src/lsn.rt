//! Positions in the write-ahead log.
ghost use Rattle.std.specs.Prelude.{◌≡◌, ℕ, Some, codes};
ghost use Rattle.std.specs.Result.{result_ok};
ghost use Rattle.pg_base.specs.Lsn.{half_of, lsn_of, lsn_text};

pub mod laws;

use std::error::Error;
use std::fmt;
use std::marker::Model;
use std::str::FromStr;

/// A log sequence number (LSN): a position in the write-ahead log, as a number of 64 bits.
///
/// Its text is the high and the low 32 bits in upper-case hexadecimal, without leading zeros, with
/// `/` between them, as in `pg_lsn_out`.
#[derive(Clone, Copy, PartialEq, Eq, PartialOrd, Ord)]
pub struct PgLsn(u64);

impl Model for PgLsn {
    ghost Value = { ℕ };

    ghost view = { λ lsn. lsn.0 };

    ghost inverse = { λ n. record { 0 = n } };
}

impl From<u64> for PgLsn {
    ghost from_gives = { λ n lsn. lsn ≡ n };

    fn from(lsn: u64) -> PgLsn {
        PgLsn(lsn)
    }
}

impl From<PgLsn> for u64 {
    ghost from_gives = { λ lsn n. n ≡ lsn };

    fn from(lsn: PgLsn) -> u64 {
        lsn.0
    }
}

/// The error that a text is not a log sequence number.
#[derive(Debug, Drop)]
pub struct ParseLsnError(());

impl fmt::Display for ParseLsnError {
    ghost output = { λ _. Some (codes "invalid input syntax for type pg_lsn") };

    fn fmt<W: fmt::Write>(&self, f: &mut fmt::Formatter<W>) -> fmt::Result {
        f.write_str("invalid input syntax for type pg_lsn")
    }
}

impl Error for ParseLsnError {}

/// Parses two hexadecimal numbers, separated by the first `/` of the text. Each has one or more
/// digits of either case, possibly after a `+`, and is below 2^64. The result is
/// `(high << 32) | low`: of the high number the upper 32 bits are lost, and the low number may have
/// more than 32 bits. (`pg_lsn_in` takes at most 8 digits and no `+`.)
impl FromStr for PgLsn {
    type Err = ParseLsnError;

    ghost from_str_gives = { λ text parsed. result_ok parsed ≡ lsn_of text };

    #[tactic(auto, using(crate::proofs::LsnLemmas::no_slash))]
    fn from_str(text: &str) -> Result<PgLsn, ParseLsnError> {
        let Some((high, low)) = text.split_once('/') else {
            return Err(ParseLsnError(()));
        };
        let (high, low) = (half(high)?, half(low)?);
        Ok(PgLsn((high << 32) | low))
    }
}

/// Returns the number in one half of the text.
#[tactic(auto, using(crate::proofs::LsnLemmas::half_from_parse))]
fn half(text: &str) -> Result<u64, ParseLsnError>
    ensures { result_ok result ≡ half_of text.now }
{
    u64::from_str_radix(text, 16).map_err(|_| ParseLsnError(()))
}

impl fmt::Display for PgLsn {
    ghost output = { λ lsn. Some (lsn_text lsn) };

    fn fmt<W: fmt::Write>(&self, f: &mut fmt::Formatter<W>) -> fmt::Result {
        let (high, low) = (self.0 >> 32, self.0 & 0xffff_ffff);
        write!(f, "{high:X}/{low:X}")
    }
}

impl fmt::Debug for PgLsn {
    fn fmt<W: fmt::Write>(&self, f: &mut fmt::Formatter<W>) -> fmt::Result {
        fmt::Display::fmt(self, f)
    }
}
