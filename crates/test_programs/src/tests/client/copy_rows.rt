//! The rows of a binary COPY, in a slice and in parts.

use super::rows::item_columns;
use pg_client::{CopyParts, CopyRows};
use std::test::Fail;
use test_support::same;

/// Two rows, 7, `ja` and true, and 8, NULL and false, after a header with a flag that is not
/// critical and an extension of 3 bytes.
const COPY: [u8; 64] = [
    b'P', b'G', b'C', b'O', b'P', b'Y', b'\n', 0xff, b'\r', b'\n', 0, //
    0, 0, 0, 1, 0, 0, 0, 3, 0xff, 0xff, 9, //
    0, 3, 0, 0, 0, 4, 0, 0, 0, 7, 0, 0, 0, 2, b'j', b'a', 0, 0, 0, 1, 1, //
    0, 3, 0, 0, 0, 4, 0, 0, 0, 8, 0xff, 0xff, 0xff, 0xff, 0, 0, 0, 1, 0, //
    0xff, 0xff,
];

#[test]
fn rows_of_a_copy_are_counted(_rt: HostRuntime) -> Result<(), Fail> {
    let columns = item_columns();
    let mut rows = CopyRows::new(&COPY, &columns)?;
    for _ in 0..3 {
        if rows.next()?.is_none() {
            break;
        }
    }
    same(rows.count(), 2)
}

#[test]
fn rows_of_parts_are_counted(_rt: HostRuntime) -> Result<(), Fail> {
    let columns = item_columns();
    let mut parts = CopyParts::new(&columns);
    let mut rest = COPY.as_slice();
    for _ in 0..3 {
        if parts.next(&mut rest)?.is_none() {
            break;
        }
    }
    same(parts.finish(), Ok(2))
}
