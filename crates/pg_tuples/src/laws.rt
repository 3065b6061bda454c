//! What equality of faults means, each as a function whose contract states it.
ghost use Rattle.std.specs.Prelude.{◌≡◌, ◌↔◌, IsTrue};

use crate::{HeaderFault, TupleFault};

/// Whether two faults of a header are equal: the same variant.
pub fn same_header_fault(a: &HeaderFault, b: &HeaderFault) -> bool
    ensures { IsTrue result ↔ (a.now ≡ b.now) }
{
    *a == *b
}

/// Whether two faults of a tuple are equal: the same variant, with the same numbers.
pub fn same_tuple_fault(a: &TupleFault, b: &TupleFault) -> bool
    ensures { IsTrue result ↔ (a.now ≡ b.now) }
{
    *a == *b
}
