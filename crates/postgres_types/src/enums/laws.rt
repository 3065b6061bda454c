//! What equality of `Enum` means, as a function whose contract states it.
ghost use Rattle.std.specs.Prelude.{◌≡◌};

use super::Enum;

/// Whether two values of an enumerated type are equal: as variants of the enumeration.
pub fn same_enum<T: PartialEq>(a: &Enum<T>, b: &Enum<T>) -> bool
    ensures { result ≡ T.eq a.now.0 b.now.0 }
{
    *a == *b
}
