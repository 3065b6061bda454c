//! Tests that a helper fails for a row that is wrong.

use postgres_types::{Fault, Type};
use std::io::Eprint;
use std::process::Termination;
use std::test::Fail;
use test_support::{
    accepts, code, debugs, displays, holds, null_takes_no_memory, reads, refuses, refuses_type,
    refuses_value, rewrites, same, spells, takes_no_memory, unix, writes, writes_by_room,
    writes_null,
};

/// The cells of 7 and 8.
const SEVEN: [u8; 4] = [0, 0, 0, 7];

const EIGHT: [u8; 4] = [0, 0, 0, 8];

/// Returns whether the row fails. A failure cannot be dropped, so it is printed.
fn fails(rt: &impl Eprint, row: Result<(), Fail>) -> bool {
    let failed = row.is_err();
    let _status = row.report(rt);
    failed
}

#[test]
fn a_row_of_another_cell_fails(rt: HostRuntime) -> Result<(), Fail> {
    let (alloc, ty) = (rt.alloc(), Type::INT4);
    let cell = fails(&rt, writes(alloc, &7i32, &ty, &EIGHT));
    let null = fails(&rt, writes(alloc, &None::<i32>, &ty, &SEVEN));
    let some = fails(&rt, writes_null(alloc, &7i32, &ty));
    let rewritten = fails(&rt, rewrites::<i32>(alloc, &ty, &SEVEN, &EIGHT));
    same([cell, null, some, rewritten], [true; 4])
}

#[test]
fn a_row_of_another_value_fails(rt: HostRuntime) -> Result<(), Fail> {
    let (alloc, ty) = (rt.alloc(), Type::INT4);
    let value = fails(&rt, reads(alloc, &ty, &SEVEN, 8i32));
    let table = [(7i32, SEVEN.as_slice()), (7, EIGHT.as_slice())];
    let second = fails(&rt, spells(alloc, &ty, &table));
    same([value, second], [true; 2])
}

#[test]
fn a_row_of_another_refusal_fails(rt: HostRuntime) -> Result<(), Fail> {
    let (alloc, ty) = (rt.alloc(), Type::INT4);
    let table = [(None, code::WAS_NULL), (Some(SEVEN.as_slice()), code::SIZE)];
    let read = fails(&rt, refuses::<i32>(alloc, &ty, &table));
    let written = fails(&rt, refuses_value(alloc, &7i32, &ty, code::WRONG_TYPE));
    let named = fails(&rt, refuses_type(alloc, &7i32, &Type::TEXT, "i64"));
    same([read, written, named], [true; 3])
}

#[test]
fn a_row_of_another_answer_fails(rt: HostRuntime) -> Result<(), Fail> {
    let accepted = [(Type::INT4, true), (Type::INT8, true)];
    let accepted = fails(&rt, accepts::<i32>(&accepted));
    let refused = fails(&rt, accepts::<i32>(&[(Type::INT4, false)]));
    let other = fails(&rt, same(7, 8));
    let time = fails(&rt, unix(0, 1_000_000_000).map(|_| ()));
    holds(accepted && refused && other && time, "a row holds")
}

#[test]
fn a_row_of_another_text_fails(rt: HostRuntime) -> Result<(), Fail> {
    let shown = fails(&rt, displays(rt.alloc(), &Type::INT4, "int8"));
    let debugged = fails(&rt, debugs(rt.alloc(), &Fault::Size, "size"));
    let held = fails(&rt, holds(false, "not held"));
    same([shown, debugged, held], [true; 3])
}

#[test]
fn a_row_that_takes_memory_fails(rt: HostRuntime) -> Result<(), Fail> {
    let alloc = rt.alloc();
    let owned = [(String::from_str(alloc, "ab")?, b"ab".as_slice())];
    let owned = fails(&rt, takes_no_memory(alloc, &Type::TEXT, &owned));
    let longer = fails(&rt, writes_by_room(alloc, &Type::TEXT, &"ab", b"abc"));
    let read = fails(&rt, null_takes_no_memory::<Option<i32>>(alloc, &Type::INT4));
    same([owned, longer, read], [true; 3])
}
