//! What is written is read back: as itself, or as the law of the type states.

use super::cells::NULL;
use jiff::civil::Date as Day;
use postgres_types::private::BytesMut;
use postgres_types::{Date, Timestamp, Type, UnixTime, rewrite};
use std::test::Fail;
use test_support::code::WAS_NULL;
use test_support::{displays, holds, read, reads_back, refusal, same, unix, writes, writes_null};

#[test]
fn an_inner_none_is_read_back_as_the_outer_none(rt: HostRuntime) -> Result<(), Fail> {
    let alloc = rt.alloc();
    writes_null(alloc, &Some(None::<i32>), &Type::INT4)?;
    let back: Option<Option<i32>> = read(alloc, &Type::INT4, None)?;
    holds(back.is_none(), "the outer None")
}

#[test]
fn a_boxed_none_is_not_read_back(rt: HostRuntime) -> Result<(), Fail> {
    let alloc = rt.alloc();
    let boxed = Box::new(alloc, None::<i32>)?;
    writes_null(alloc, &boxed, &Type::INT4)?;
    let list = vec![in alloc; boxed]?;
    writes(alloc, &list, &Type::INT4_ARRAY, &NULL)?;
    let refused = [
        refusal::<Box<Option<i32>>>(alloc, &Type::INT4, None),
        refusal::<Vec<Box<Option<i32>>>>(alloc, &Type::INT4_ARRAY, Some(&NULL)),
    ];
    same(refused, [WAS_NULL, WAS_NULL])
}

/// The date infinity.
const INFINITE_DATE: [u8; 4] = [0x7f, 0xff, 0xff, 0xff];

/// The timestamp infinity.
const INFINITE_TIMESTAMP: [u8; 8] = [0x7f, 0xff, 0xff, 0xff, 0xff, 0xff, 0xff, 0xff];

#[test]
fn infinities_are_read_back_before_values(rt: HostRuntime) -> Result<(), Fail> {
    let alloc = rt.alloc();
    let inner: Date<Date<Day>> = Date::Value(Date::PosInfinity);
    reads_back(
        alloc,
        &Type::DATE,
        &inner,
        &INFINITE_DATE,
        Date::PosInfinity,
    )?;
    let last = Timestamp::Value(unix(9_224_318_721_654, 775_807_000)?);
    let infinity: Timestamp<UnixTime> = Timestamp::PosInfinity;
    reads_back(
        alloc,
        &Type::TIMESTAMP,
        &last,
        &INFINITE_TIMESTAMP,
        infinity,
    )
}

#[test]
fn a_type_that_is_not_accepted_is_not_rewritten(rt: HostRuntime) -> Result<(), Fail> {
    let mut out = BytesMut::copy_from_slice(rt.alloc(), b"before")?;
    let Err(fault) = rewrite::<i32>(rt.alloc(), &Type::TEXT, None, &mut out) else {
        return Err(Fail::from("accepted"));
    };
    let text = "cannot convert between the Rust type `rewrite` and the Postgres type `text`";
    displays(rt.alloc(), &fault, text)?;
    same(out.as_slice(), b"before")
}
