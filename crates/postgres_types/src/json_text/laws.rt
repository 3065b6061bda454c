//! What equality of JSON documents as texts means, as a function whose contract states it.
ghost use Rattle.std.specs.Prelude.{◌≡◌};

use super::JsonText;

/// Whether two documents are equal: as texts.
pub fn same_json_text<T: PartialEq>(a: &JsonText<T>, b: &JsonText<T>) -> bool
    ensures { result ≡ T.eq a.now.0 b.now.0 }
{
    *a == *b
}
