//! Framed cells, and runs of framed values, read from the front of a slice.

use postgres_types::private::{read_be_i32, read_value, read_values};
use postgres_types::{Fault, FromSql, Type};
use std::alloc::Global;
use std::fmt::Debug;
use std::test::Fail;
use test_support::code::{SIZE, WAS_NULL};
use test_support::{fault_code, holds, same};

/// NULL, and a trailing byte.
const NULL_AND_MORE: [u8; 5] = [0xff, 0xff, 0xff, 0xff, 0];

/// The length 5, and one byte.
const TRUNCATED: [u8; 5] = [0, 0, 0, 5, 9];

/// Bytes, the big-endian integer that they begin with or the number of the fault, and the bytes
/// that remain.
const INTEGERS: [(&[u8], Result<i32, u32>, &[u8]); 2] = [
    (&[0, 0], Err(SIZE), &[0, 0]),
    (&TRUNCATED, Ok(5), &[9]),
];

#[test]
fn integers_are_read_from_the_front(_rt: HostRuntime) -> Result<(), Fail> {
    for (bytes, answer, rest) in INTEGERS {
        let mut buf = bytes;
        same(read_be_i32(&mut buf).map_err(|fault| fault.code()), answer)?;
        same(buf, rest)?;
    }
    Ok(())
}

/// Bytes that do not begin with a framed INT4, the number of the fault, and the bytes that remain.
const REFUSED: [(&[u8], u32, &[u8]); 3] = [
    (&NULL_AND_MORE, WAS_NULL, &[0]),
    (&TRUNCATED, SIZE, &[9]),
    (&[0, 0, 0, 2, 0, 1, 0xff], SIZE, &[0xff]),
];

/// The array of 1 and 2, framed, and a trailing byte.
const ARRAY: [u8; 41] = [
    0, 0, 0, 0x24, 0, 0, 0, 1, 0, 0, 0, 0, 0, 0, 0, 0x17, 0, 0, 0, 2, 0, 0, 0, 1, 0, 0, 0, 4, 0, 0,
    0, 1, 0, 0, 0, 4, 0, 0, 0, 2, 0xaa,
];

/// The same, but the length of the last element is greater by 1 than the number of bytes that
/// follow.
const TRUNCATED_ARRAY: [u8; 41] = [
    0, 0, 0, 0x24, 0, 0, 0, 1, 0, 0, 0, 0, 0, 0, 0, 0x17, 0, 0, 0, 2, 0, 0, 0, 1, 0, 0, 0, 4, 0, 0,
    0, 1, 0, 0, 0, 5, 0, 0, 0, 2, 0xaa,
];

/// Tests that reading a framed cell from the front of the bytes gives this value, or the fault of
/// this number, and leaves the rest.
fn takes<'a, T: FromSql<'a> + PartialEq + Debug>(
    alloc: Global,
    ty: &Type,
    bytes: &'a [u8],
    answer: Result<T, u32>,
    rest: &[u8],
) -> Result<(), Fail> {
    if !T::accepts(ty) {
        return Err(Fail::from("not accepted"));
    }
    let mut buf = bytes;
    let found: Result<T, Fault> = read_value(alloc, ty, &mut buf);
    same(buf, rest)?;
    same(found.map_err(|fault| fault.code()), answer)
}

#[test]
fn null_and_refused_cells_are_passed_over(rt: HostRuntime) -> Result<(), Fail> {
    for (bytes, code, rest) in REFUSED {
        takes::<i32>(rt.alloc(), &Type::INT4, bytes, Err(code), rest)?;
    }
    takes(
        rt.alloc(),
        &Type::INT4,
        &NULL_AND_MORE,
        Ok(None::<i32>),
        &[0],
    )
}

#[test]
fn arrays_are_passed_over_also_if_refused(rt: HostRuntime) -> Result<(), Fail> {
    let alloc = rt.alloc();
    let ty = &Type::INT4_ARRAY;
    let values = Vec::from_slice(alloc, &[1i32, 2])?;
    takes(alloc, ty, &ARRAY, Ok(values), &[0xaa])?;
    takes::<Vec<i32>>(alloc, ty, &TRUNCATED_ARRAY, Err(SIZE), &[0xaa])
}

/// Bytes, the INT4 that are read from them, and the bytes that remain.
const RUNS: [(&[u8], &[i32], &[u8]); 2] = [
    (
        &[0, 0, 0, 4, 0, 0, 0, 1, 0, 0, 0, 4, 0, 0, 0, 2, 0xff],
        &[1, 2],
        &[0xff],
    ),
    (&[0xff], &[], &[0xff]),
];

#[test]
fn runs_are_read_up_to_their_end(rt: HostRuntime) -> Result<(), Fail> {
    for (bytes, values, rest) in RUNS {
        let mut buf = bytes;
        let found: Result<Vec<i32>, Fault> = read_values(
            rt.alloc(),
            &Type::INT4,
            values.len(),
            &mut buf,
        );
        let is_after_a_cell = bytes.len().saturating_sub(buf.len()) % 8 == 0;
        holds(found.is_ok() || is_after_a_cell, "within a cell")?;
        let found = found?;
        same(found.as_slice(), values)?;
        same(buf, rest)?;
    }
    Ok(())
}

/// Bytes, the number of INT4 that are read from them, the number of the fault, and the bytes that
/// remain: the cell of 1 with NULL, and with a truncated length, and no bytes.
const REFUSED_RUNS: [(&[u8], usize, u32, &[u8]); 3] = [
    (
        &[0, 0, 0, 4, 0, 0, 0, 1, 0xff, 0xff, 0xff, 0xff, 0],
        3,
        WAS_NULL,
        &[0],
    ),
    (&[0, 0, 0, 4, 0, 0, 0, 1, 0, 0, 0], 2, SIZE, &[0, 0, 0]),
    (&[], usize::MAX, SIZE, &[]),
];

#[test]
fn a_refused_cell_ends_a_run(rt: HostRuntime) -> Result<(), Fail> {
    for (bytes, n, code, rest) in REFUSED_RUNS {
        let mut buf = bytes;
        let refused = read_values::<i32>(rt.alloc(), &Type::INT4, n, &mut buf);
        same(fault_code(refused), code)?;
        same(buf, rest)?;
    }
    Ok(())
}
