//! What equality means, each as a function whose contract states it.
ghost use Rattle.std.specs.Prelude.{◌≡◌, ◌↔◌, IsTrue};

use crate::columns::TypeFault;
use crate::copy_fault::Row;
use crate::types::Base;

/// Whether two types of values are equal: the same variant.
pub fn same_base(a: &Base, b: &Base) -> bool
    ensures { IsTrue result ↔ (a.now ≡ b.now) }
{
    *a == *b
}

/// Whether two rows are equal: both tuples or both lines, with the same number.
pub fn same_row(a: &Row, b: &Row) -> bool
    ensures { IsTrue result ↔ (a.now ≡ b.now) }
{
    *a == *b
}

/// Whether two faults of a type are equal: the same variant.
pub fn same_type_fault(a: &TypeFault, b: &TypeFault) -> bool
    ensures { IsTrue result ↔ (a.now ≡ b.now) }
{
    *a == *b
}
