//! Intervals of time: a table of rows, and the faults of their cells.

use postgres_types::{Interval, Type};
use std::test::Fail;
use test_support::code::{SIZE, WAS_NULL};
use test_support::{has_cells, refuses_type, spells};

/// Microseconds, days and months, and their cell. The second row is of `1 mon 2 days 00:00:03`, the
/// last two are those that PostgreSQL reads as infinities.
const INTERVALS: [((i64, i32, i32), &[u8]); 4] = [
    ((1, 2, 3), b"\0\0\0\0\0\0\0\x01\0\0\0\x02\0\0\0\x03"),
    (
        (3_000_000, 2, 1),
        b"\0\0\0\0\0\x2d\xc6\xc0\0\0\0\x02\0\0\0\x01",
    ),
    (
        (i64::MAX, i32::MAX, i32::MAX),
        b"\x7f\xff\xff\xff\xff\xff\xff\xff\x7f\xff\xff\xff\x7f\xff\xff\xff",
    ),
    (
        (i64::MIN, i32::MIN, i32::MIN),
        b"\x80\0\0\0\0\0\0\0\x80\0\0\0\x80\0\0\0",
    ),
];

/// The first cell lacks a byte.
const OTHER_CELLS: [(Option<&[u8]>, u32); 2] = [
    (Some(b"\0\0\0\0\0\0\0\x01\0\0\0\x02\0\0\0"), SIZE),
    (None, WAS_NULL),
];

/// The array of NULL: its element type is 1186.
const NULLS: &[u8] = b"\0\0\0\x01\0\0\0\x01\0\0\x04\xa2\0\0\0\x01\0\0\0\x01\xff\xff\xff\xff";

fn interval((microseconds, days, months): (i64, i32, i32)) -> Interval {
    Interval {
        microseconds,
        days,
        months,
    }
}

#[test]
fn intervals_have_their_cells(rt: HostRuntime) -> Result<(), Fail> {
    let alloc = rt.alloc();
    for (parts, cell) in INTERVALS {
        let row = [(interval(parts), cell)];
        has_cells(alloc, &Type::INTERVAL, &row, &OTHER_CELLS)?;
    }
    refuses_type(alloc, &interval((1, 2, 3)), &Type::INT8, "Interval")
}

#[test]
fn arrays_of_intervals_have_the_element_type_of_intervals(rt: HostRuntime) -> Result<(), Fail> {
    let alloc = rt.alloc();
    let nulls = vec![in alloc; None::<Interval>]?;
    spells(alloc, &Type::INTERVAL_ARRAY, &[(nulls, NULLS)])
}
