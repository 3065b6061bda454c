//! Byte strings.
ghost use Rattle.std.specs.Prelude.{◌≡◌, Some};
ghost use Rattle.pg_base.specs.Appending.{Appends};

use crate::fault::Fault;
use bytes::BytesMut;
use std::alloc::Global;

/// Reads BYTEA: the bytes themselves (`bytearecv`). It never fails.
pub fn bytea_from_sql(raw: &[u8]) -> &[u8]
    ensures { result.now ≡ raw.now }
{
    raw
}

/// Appends BYTEA: the bytes themselves (`byteasend`).
#[inline(always)]
pub fn bytea_to_sql(_alloc: Global, v: &[u8], out: &mut BytesMut) -> Result<(), Fault>
    ensures { Appends (Some v.now) out.old out.new result }
{
    out.extend_from_slice(v)?;
    Ok(())
}
