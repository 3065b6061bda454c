//! Parameters of a Bind message.
ghost use Rattle.std.specs.Prelude.{◌≡◌, length};

use crate::{BEFORE, holds, same};
use postgres_types::private::BytesMut;
use postgres_types::{ToSql, Type, params_to_sql};
use std::alloc::Global;
use std::test::Fail;

/// Tests that the frames of the parameters are appended to the buffer.
pub fn binds(
    alloc: Global,
    params: &[Box<dyn ToSql>],
    types: &[Type],
    frames: &[u8],
) -> Result<(), Fail> {
    let mut out = BytesMut::copy_from_slice(alloc, BEFORE)?;
    if params.len() != types.len() {
        return Err(Fail::from("as many types as parameters"));
    }
    match params_to_sql(alloc, params, types, &mut out) {
        Ok(()) => same(out.strip_prefix(BEFORE), Some(frames)),
        Err((place, fault)) => {
            holds(place < params.len(), "a place of a parameter")?;
            same(out.as_slice(), BEFORE)?;
            Err(Fail::from(fault))
        }
    }
}
