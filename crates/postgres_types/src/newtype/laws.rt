//! What equality of newtypes means, each as a function whose contract states it.
ghost use Rattle.std.specs.Prelude.{◌≡◌};

use super::{Domain, Transparent};

/// Whether two values of a domain are equal: as structs.
pub fn same_domain<T: PartialEq>(a: &Domain<T>, b: &Domain<T>) -> bool
    ensures { result ≡ T.eq a.now.0 b.now.0 }
{
    *a == *b
}

/// Whether two values of [`Transparent`] are equal: as structs.
pub fn same_transparent<T: PartialEq>(a: &Transparent<T>, b: &Transparent<T>) -> bool
    ensures { result ≡ T.eq a.now.0 b.now.0 }
{
    *a == *b
}
