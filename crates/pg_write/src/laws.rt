//! What the library's own types promise beyond the contract of the trait.
ghost use Rattle.std.specs.Prelude.{◌≡◌, ◌≤◌, ℕ, IsTrue, List, length};
ghost use Rattle.std.specs.Box.{boxed_slice_items};
ghost use Rattle.std.specs.Cmp.Lexicographic.{slice_cmp};
ghost use Rattle.std.specs.List.Sorted.{IsStrictlySortedBy};
ghost use Rattle.std.specs.Map.{keys_of, lookup};
ghost use Rattle.std.specs.Ordering.{nat_cmp};
ghost use Rattle.std.specs.Str.{bytes_eq};
ghost use Rattle.pg_base.specs.Cells.{max_length};
ghost use Rattle.pg_base.specs.Hstore.{Entry, in_key_order};

use crate::to_sql::ToSql;
use jiff::civil;
use pg_base::bits::BitVec;
use pg_base::interval::Interval;
use pg_base::lsn::PgLsn;
use pg_base::network::{IpCidr, IpInet, MacAddress};
use pg_base::special::{Date, Timestamp};
use pg_base::unix_time::UnixTime;
use serde_json::Value;
use std::borrow::{CowSlice, CowStr};
use std::boxed::{BoxedSlice, BoxedStr};
use std::collections::HashMap;
use std::net::IpAddr;
use uuid::Uuid;

/// Writing a `T` returns `Memory` only if the buffer has less spare room than the cell has bytes,
/// and checked writing refuses a built-in type without allocating.
fn keeps_room_rule<T: ToSql>()
    requires room { (value : T) → T.by_room value }
    requires refusal { IsTrue T.refuses_memory_free }
{}

/// Checked writing of a `T` refuses a built-in type without allocating, even if writing allocates.
fn refuses_without_memory<T: ToSql>()
    requires { IsTrue T.refuses_memory_free }
{}

/// The types that keep the room rule. An option, a box, a reference, a `Date` and a `Timestamp` do
/// where what they contain does.
pub fn types_that_keep_the_room_rule() {
    keeps_room_rule::<bool>();
    keeps_room_rule::<i8>();
    keeps_room_rule::<i16>();
    keeps_room_rule::<i32>();
    keeps_room_rule::<i64>();
    keeps_room_rule::<u32>();
    keeps_room_rule::<&str>();
    keeps_room_rule::<String>();
    keeps_room_rule::<BoxedStr>();
    keeps_room_rule::<CowStr>();
    keeps_room_rule::<&[u8]>();
    keeps_room_rule::<Vec<u8>>();
    keeps_room_rule::<[u8; 4]>();
    keeps_room_rule::<CowSlice<u8>>();
    keeps_room_rule::<BitVec>();
    keeps_room_rule::<IpAddr>();
    keeps_room_rule::<IpInet>();
    keeps_room_rule::<IpCidr>();
    keeps_room_rule::<MacAddress>();
    keeps_room_rule::<Uuid>();
    keeps_room_rule::<PgLsn>();
    keeps_room_rule::<civil::Date>();
    keeps_room_rule::<civil::Time>();
    keeps_room_rule::<civil::DateTime>();
    keeps_room_rule::<jiff::Timestamp>();
    keeps_room_rule::<UnixTime>();
    keeps_room_rule::<Interval>();
    keeps_room_rule::<Date<civil::Date>>();
    keeps_room_rule::<Timestamp<UnixTime>>();
    keeps_room_rule::<Option<i32>>();
    keeps_room_rule::<Box<i32>>();
    keeps_room_rule::<&i32>();
}

/// The value keeps the room rule.
fn value_keeps_room_rule<T: ToSql>(value: &T)
    requires { T.by_room value.now }
{}

/// A list keeps the room rule if its elements do and none is refused, as no boolean is.
pub fn lists_that_keep_the_room_rule(list: &Vec<bool>, boxed: &BoxedSlice<bool>)
    requires list { length list.now.items ≤ max_length }
    requires boxed { length (boxed_slice_items boxed.now) ≤ max_length }
{
    value_keeps_room_rule(list);
    value_keeps_room_rule(&list.as_slice());
    value_keeps_room_rule(boxed);
    value_keeps_room_rule(&[false, true]);
}

/// The types of which not every value keeps the room rule, and that checked writing refuses without
/// allocating.
pub fn types_refused_without_memory() {
    refuses_without_memory::<Vec<i32>>();
    refuses_without_memory::<&[i32]>();
    refuses_without_memory::<[i32; 2]>();
    refuses_without_memory::<BoxedSlice<i32>>();
    refuses_without_memory::<Vec<Vec<Option<i16>>>>();
    refuses_without_memory::<HashMap<String, Option<String>>>();
    refuses_without_memory::<Value>();
}

/// The entries of an hstore, as they are written: in the order of their keys' bytes, each key once,
/// and with the value that a map of these entries has at each key.
#[tactic(auto, using(crate::proofs::Insertion::in_order, crate::proofs::Insertion::in_order_lookup))]
pub fn entries_are_written_in_key_order()
    ensures order { (es : List Entry) → IsStrictlySortedBy (slice_cmp nat_cmp) (keys_of (in_key_order es)) }
    ensures values { (q : List ℕ) (es : List Entry) → lookup (bytes_eq q) (in_key_order es) ≡ lookup (bytes_eq q) es }
{}
