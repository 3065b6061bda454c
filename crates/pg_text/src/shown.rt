//! Texts that are written by `Display`.
ghost use Rattle.std.specs.Prelude.{◌≡◌, ◌++◌, OnOk};
ghost use Rattle.std.specs.Fmt.{AppendsText};

use std::alloc::{AllocError, Global};
use std::fmt::{self, Display, Formatter, Write};
use std::mem;

/// A buffer for the bytes of a text.
#[derive(Drop)]
struct Bytes(Vec<u8>);

impl Write for Bytes {
    ghost write_str_gives = { λ before text after. after.0.items ≡ before.0.items ++ text };

    fn write_str(&mut self, text: &str) -> fmt::Result {
        self.0
            .extend_from_slice(text.as_bytes())
            .map_err(|_| fmt::Error)
    }
}

/// Appends the text of a value. If memory runs out, a part of the text may have been appended.
pub fn push_shown<T: Display>(alloc: Global, value: &T, out: &mut Vec<u8>) -> Result<(), AllocError>
    ensures { OnOk result (AppendsText out.old.items out.new.items (T.output value.now)) }
{
    let bytes = mem::replace(out, Vec::new(alloc));
    let mut f = Formatter::new(Bytes(bytes));
    let written = f.write(value);
    *out = f.into_inner().0;
    written.map_err(|_| AllocError)
}
