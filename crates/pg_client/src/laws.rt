//! What equality of faults means, each as a function whose contract states it.
ghost use Rattle.std.specs.Prelude.{◌≡◌, ◌↔◌, IsTrue};

use crate::catalog::TypeFault;
use crate::copy_rows::CopyFault;
use crate::described::DescriptionFault;

/// Whether two faults of a binary COPY are equal: the same variant, with the same row and fault.
pub fn same_copy_fault(a: &CopyFault, b: &CopyFault) -> bool
    ensures { IsTrue result ↔ (a.now ≡ b.now) }
{
    *a == *b
}

/// Whether two faults of a row of the catalog are equal: the same variant, with the same number.
pub fn same_type_fault(a: &TypeFault, b: &TypeFault) -> bool
    ensures { IsTrue result ↔ (a.now ≡ b.now) }
{
    *a == *b
}

/// Whether two faults of a description are equal: the same variant, with the same OID.
pub fn same_description_fault(a: &DescriptionFault, b: &DescriptionFault) -> bool
    ensures { IsTrue result ↔ (a.now ≡ b.now) }
{
    *a == *b
}
