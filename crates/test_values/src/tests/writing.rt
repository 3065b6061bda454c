//! Options, references and objects in writing.

use postgres_types::private::BytesMut;
use postgres_types::{Format, IsNull, ToSql, Type};
use std::test::Fail;
use test_support::{refuses_type, same, writes, writes_by_room};

#[test]
fn options_and_references_are_written_as_their_values(rt: HostRuntime) -> Result<(), Fail> {
    let alloc = rt.alloc();
    writes(alloc, &Some("x"), &Type::TEXT, b"x")?;
    writes(alloc, &&&7i32, &Type::INT4, &[0, 0, 0, 7])?;
    writes_by_room(alloc, &Type::INT4, &&7i32, &[0, 0, 0, 7])?;
    same(Some(7i32).encode_format(&Type::INT4), Format::Binary)?;
    refuses_type(alloc, &Some(7i32), &Type::TEXT, "Option")
}

#[test]
fn a_borrowed_object_is_written(rt: HostRuntime) -> Result<(), Fail> {
    let alloc = rt.alloc();
    let mut out = BytesMut::new(alloc);
    let seven = 7i32;
    let object: &dyn ToSql = &seven;
    let answer = object.to_sql_checked(alloc, &Type::INT4, &mut out)?;
    same(answer, IsNull::No)?;
    same(out.as_slice(), [0u8, 0, 0, 7].as_slice())
}
