//! The separators between the items of a text.
ghost use Rattle.std.specs.Prelude.{◌≡◌, ◌++◌, OnOk};
ghost use Rattle.pg_text.specs.Lists.{separator};

use std::alloc::AllocError;

/// Appends the byte if the item at this index is not the first one.
pub fn push_separator(place: usize, byte: u8, out: &mut Vec<u8>) -> Result<(), AllocError>
    ensures { OnOk result (out.new.items ≡ out.old.items ++ separator byte place) }
{
    if place > 0 {
        Ok(out.push(byte)?)
    } else {
        Ok(())
    }
}
