//! What equality of these types means, each as a function whose contract states it.
ghost use Rattle.std.specs.Prelude.{◌≡◌, ◌↔◌, IsTrue, string_bytes};
ghost use Rattle.own_types.specs.Equality.{same_address, same_parcel, same_purchase};

use crate::composite::Purchase;
use crate::domain::{Email, Percentage};
use crate::enumerated::Level;
use crate::nested_composite::{Address, Parcel};
use crate::newtype::Days;
use crate::null_value::Rating;
use crate::wrapper::Tagged;

/// Whether two percentages are equal.
pub fn same_percentage(a: &Percentage, b: &Percentage) -> bool
    ensures { IsTrue result ↔ (a.now ≡ b.now) }
{
    *a == *b
}

/// Whether two email addresses are equal: of the same bytes.
pub fn same_email(a: &Email, b: &Email) -> bool
    ensures { IsTrue result ↔ (string_bytes a.now.0 ≡ string_bytes b.now.0) }
{
    *a == *b
}

/// Whether two levels are equal: the same variant.
pub fn same_level(a: &Level, b: &Level) -> bool
    ensures { IsTrue result ↔ (a.now ≡ b.now) }
{
    *a == *b
}

/// Whether two addresses are equal: of the same street and city.
pub fn same_address(a: &Address, b: &Address) -> bool
    ensures { result ≡ same_address a.now b.now }
{
    *a == *b
}

/// Whether two parcels are equal: of the same label and addresses.
pub fn same_parcel(a: &Parcel, b: &Parcel) -> bool
    ensures { result ≡ same_parcel a.now b.now }
{
    *a == *b
}

/// Whether two purchases are equal: in each field.
pub fn same_purchase(a: &Purchase, b: &Purchase) -> bool
    ensures { result ≡ same_purchase a.now b.now }
{
    *a == *b
}

/// Whether two numbers of days are equal.
pub fn same_days(a: &Days, b: &Days) -> bool
    ensures { IsTrue result ↔ (a.now ≡ b.now) }
{
    *a == *b
}

/// Whether two ratings are equal: both NULL, or with the same stars.
pub fn same_rating(a: &Rating, b: &Rating) -> bool
    ensures { IsTrue result ↔ (a.now ≡ b.now) }
{
    *a == *b
}

/// Whether two tagged values are equal: as values.
pub fn same_tagged<T: PartialEq>(a: &Tagged<T>, b: &Tagged<T>) -> bool
    ensures { result ≡ T.eq a.now.0 b.now.0 }
{
    *a == *b
}
