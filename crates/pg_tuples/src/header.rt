//! The header: the signature, the flags and the length of the header extension.
ghost use Rattle.std.specs.Prelude.{◌≡◌, IfErr, IfOk, OnErr, OnOk};
ghost use Rattle.pg_tuples.specs.Reading.{TakesHeader};
ghost use Rattle.pg_tuples.specs.Refusals.{RefusesFlags, RefusesHeader};

use pg_base::protocol::split_number;
use thiserror::Error;

/// The signature, with which a binary COPY begins.
const SIGNATURE: &[u8; 11] = b"PGCOPY\n\xff\r\n\0";

/// The header that a writer begins with: the signature, no flag set, and an empty header extension.
pub const HEADER: &[u8; 19] = b"PGCOPY\n\xff\r\n\0\0\0\0\0\0\0\0\0";

/// The critical flag that says that the tuples begin with an OID.
const OIDS: u16 = 1;

/// Why a header is refused.
#[derive(Debug, Clone, Copy, PartialEq, Eq, Error)]
pub enum HeaderFault {
    /// The bytes do not begin with the signature.
    #[error("not a binary COPY")]
    Signature,
    /// The tuples have OIDs, as servers before version 12 could send them.
    #[error("tuples with OIDs")]
    Oids,
    /// An unknown critical flag is set.
    #[error("unknown critical flag")]
    Flags,
    /// The length of the header extension is negative.
    #[error("negative length of the header extension")]
    Extension,
}

/// Takes the signature, the flags and the length of the header extension from the front of the
/// bytes. Returns the length of the extension, or `None` if the bytes end before it. In that case,
/// and after a fault, nothing is taken.
pub fn take_header(bytes: &mut &[u8]) -> Result<Option<usize>, HeaderFault>
    ensures ok { IfOk result (λ extension. TakesHeader bytes.old.now extension bytes.new.now) }
    ensures err { OnErr result (bytes.new.now ≡ bytes.old.now) }
    ensures refused { IfErr result (RefusesHeader bytes.old.now) }
{
    let Some(flags) = bytes.strip_prefix(SIGNATURE) else {
        return if SIGNATURE.starts_with(bytes) {
            Ok(None)
        } else {
            Err(HeaderFault::Signature)
        };
    };
    let [c0, c1, _, _, length @ ..] = flags else {
        return Ok(None);
    };
    check_flags(*c0, *c1)?;
    let Ok((len, extension)) = split_number(length) else {
        return Ok(None);
    };
    if len < 0 {
        return Err(HeaderFault::Extension);
    }
    *bytes = extension;
    Ok(Some(len as usize))
}

/// Refuses critical flags that are set; they are the first two of the four bytes of flags, and none
/// of them is known.
fn check_flags(high: u8, low: u8) -> Result<(), HeaderFault>
    ensures ok { OnOk result ((high ≡ 0) × (low ≡ 0)) }
    ensures refused { IfErr result (RefusesFlags high low) }
{
    if high == 0 && low == 0 {
        return Ok(());
    }
    if u16::from_be_bytes([high, low]) & OIDS != 0 {
        return Err(HeaderFault::Oids);
    }
    Err(HeaderFault::Flags)
}
