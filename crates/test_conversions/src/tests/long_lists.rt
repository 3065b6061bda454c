//! Lists of many elements. If there is enough memory they are written and read, which no contract
//! states.

use postgres_types::private::BytesMut;
use postgres_types::{IsNull, ToSql, Type};
use std::test::Fail;
use test_support::{holds, read, same};

#[test]
fn long_lists_are_written_and_read(rt: HostRuntime) -> Result<(), Fail> {
    let alloc = rt.alloc();
    let list = vec![in alloc; 7i32; 100_000]?;
    let mut cell = BytesMut::new(alloc);
    let answer = list.to_sql_checked(alloc, &Type::INT4_ARRAY, &mut cell)?;
    same(answer, IsNull::No)?;
    let back: Vec<i32> = read(alloc, &Type::INT4_ARRAY, Some(cell.as_slice()))?;
    holds(back == list, "another list")
}

#[test]
fn long_arrays_are_written_and_read(rt: HostRuntime) -> Result<(), Fail> {
    let alloc = rt.alloc();
    let array = [7i32; 1_000];
    let mut cell = BytesMut::new(alloc);
    let answer = array.to_sql_checked(alloc, &Type::INT4_ARRAY, &mut cell)?;
    same(answer, IsNull::No)?;
    let back: [i32; 1_000] = read(alloc, &Type::INT4_ARRAY, Some(cell.as_slice()))?;
    holds(back == array, "another array")
}
