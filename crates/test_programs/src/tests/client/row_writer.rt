//! Rows that are written by their types: the parameters of a Bind message, and tuples of a COPY.

use pg_client::{RowWriter, push_copy_header, push_copy_trailer};
use postgres_types::{BytesMut, Type};
use std::test::Fail;
use test_support::same;

#[test]
fn a_copy_is_written(rt: HostRuntime) -> Result<(), Fail> {
    let types = [Type::INT4];
    let mut out = BytesMut::new(rt.alloc());
    push_copy_header(&mut out)?;
    let mut row = RowWriter::tuple(&mut out, &types)?;
    row.push(&7i32)?;
    row.finish()?;
    push_copy_trailer(&mut out)?;
    let copy = b"PGCOPY\n\xff\r\n\0\0\0\0\0\0\0\0\0\0\x01\0\0\0\x04\0\0\0\x07\xff\xff";
    same(out.as_slice(), copy.as_slice())
}

/// The parameters 7 and `ja`.
const BIND: [u8; 24] = [
    0, 1, 0, 1, 0, 2, 0, 0, 0, 4, 0, 0, 0, 7, 0, 0, 0, 2, b'j', b'a', 0, 1, 0, 1,
];

#[test]
fn parameters_are_written(rt: HostRuntime) -> Result<(), Fail> {
    let types = [Type::INT4, Type::TEXT];
    let mut out = BytesMut::new(rt.alloc());
    RowWriter::bind(&mut out, &types)?.write(&(7i32, "ja"))?;
    RowWriter::bind(&mut out, &types)?.cancel();
    same(out.as_slice(), &BIND)
}
