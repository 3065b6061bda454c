//! What reading and writing of JSON documents share.
ghost use Rattle.std.specs.Prelude.{◌≡◌};
ghost use Rattle.serde_json.specs.View.{view, items_view, members_view};
ghost use Rattle.serde_json.specs.Written.{has_float, items_have_float, members_have_float};

use serde_json::{Map, Value};

/// The version, which is the first byte of a JSONB cell.
pub const JSONB_VERSION: u8 = 1;

/// Whether the value contains, at any depth, a number that is neither an `i64` nor a `u64`.
#[cycle(numbers)]
pub fn has_other_number(value: &Value) -> bool
    ensures { result ≡ has_float (view value.now) }
{
    match value {
        Value::Null | Value::Bool(_) | Value::String(_) => false,
        Value::Number(number) => number.is_f64(),
        Value::Array(items) => items_have_other_number(items),
        Value::Object(members) => members_have_other_number(members),
    }
}

#[cycle(numbers)]
fn items_have_other_number(items: &Vec<Value>) -> bool
    ensures { result ≡ items_have_float (items_view items.now.items) }
{
    for item in items {
        if has_other_number(item) {
            return true;
        }
    }
    false
}

#[cycle(numbers)]
fn members_have_other_number(members: &Map<String, Value>) -> bool
    ensures { result ≡ members_have_float (members_view members.now.entries) }
{
    for (_, member) in members.iter() {
        if has_other_number(member) {
            return true;
        }
    }
    false
}
