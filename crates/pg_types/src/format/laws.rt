//! What equality of formats and of `IsNull` means, each as a function whose contract states it.
ghost use Rattle.std.specs.Prelude.{◌≡◌, ◌↔◌, IsTrue};

use super::{Format, IsNull};

/// Whether two results of a write are equal: the same variant.
pub fn same_is_null(a: &IsNull, b: &IsNull) -> bool
    ensures { IsTrue result ↔ (a.now ≡ b.now) }
{
    *a == *b
}

/// Whether two formats are equal: the same variant.
pub fn same_format(a: &Format, b: &Format) -> bool
    ensures { IsTrue result ↔ (a.now ≡ b.now) }
{
    *a == *b
}
