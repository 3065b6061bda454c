//! Calls that do not allocate, apart from reading and writing of values.

use postgres_types::private::{BytesMut, read_be_i32, read_value};
use postgres_types::protocol::{
    lquery_from_sql, ltree_from_sql, ltxtquery_from_sql, varbit_from_sql,
};
use postgres_types::{Format, IsNull, PgLsn, ToSql, Type, rewrite, to_sql_checked_as};
use std::alloc::Global;
use std::test::Fail;
use test_support::code::WRONG_TYPE;
use test_support::fault_code;
use test_support::without_memory::{Answered, Target, answer_without_memory, gives, yes};

/// The frame of the text `ab`, and a trailing byte.
const AB: &[u8] = &[0, 0, 0, 2, b'a', b'b', 9];

/// Reads from the front of a slice.
fn first_values(alloc: Global) -> Answered {
    let mut buf = AB;
    let text = read_value::<&str>(alloc, &Type::TEXT, &mut buf);
    yes(gives(text, "ab") && buf == [9u8].as_slice(), "read_value")?;
    let mut buf = AB;
    yes(gives(read_be_i32(&mut buf), 2), "read_be_i32")
}

/// Tests that a built-in type that is not accepted is refused with `WrongType`.
fn refuses_types(alloc: Global) -> Answered {
    let mut out = BytesMut::new(alloc);
    let checked = 7i32.to_sql_checked(alloc, &Type::CIDR, &mut out);
    yes(fault_code(checked) == WRONG_TYPE, "to_sql_checked")?;
    let named = to_sql_checked_as(alloc, &7i32, "value", &Type::CIDR, &mut out);
    yes(fault_code(named) == WRONG_TYPE, "to_sql_checked_as")?;
    let text = rewrite::<String>(alloc, &Type::INT4, Some(b"ab"), &mut out);
    yes(fault_code(text) == WRONG_TYPE, "rewrite")
}

/// Tests that NULL is written into a full buffer.
fn writes_null(alloc: Global, target: &mut Target) -> Answered {
    target.leave(0)?;
    let plain = None::<i32>.to_sql(alloc, &Type::INT4, &mut target.out);
    yes(gives(plain, IsNull::Yes), "to_sql of None")?;
    let written = None::<Vec<i32>>.to_sql_checked(alloc, &Type::INT4_ARRAY, &mut target.out);
    yes(gives(written, IsNull::Yes) && target.has(&[]), "NULL")
}

/// Tests that a built-in type is found and copied, and a log sequence number parsed.
fn copies_type() -> Answered {
    yes(Type::from_oid(23) == Some(Type::INT4), "from_oid")?;
    let format = 7i32.encode_format(&Type::INT4);
    yes(format == Format::Binary, "encode_format")?;
    let position = "16/B374D848".parse::<PgLsn>().ok();
    yes(position == Some(PgLsn::from(0x16_b374_d848)), "PgLsn")?;
    yes(
        gives(Type::INT4_ARRAY.try_clone(), Type::INT4_ARRAY),
        "try_clone",
    )
}

/// Reads cells that no type without memory of its own is read from.
fn reads_protocol() -> Answered {
    yes(varbit_from_sql(&[0, 0, 0, 0]).is_ok(), "varbit_from_sql")?;
    yes(gives(ltree_from_sql(b"\x01a"), "a"), "ltree_from_sql")?;
    yes(gives(lquery_from_sql(b"\x01a"), "a"), "lquery_from_sql")?;
    yes(
        gives(ltxtquery_from_sql(b"\x01a"), "a"),
        "ltxtquery_from_sql",
    )
}

#[test]
fn calls_are_answered_without_memory(rt: HostRuntime) -> Result<(), Fail> {
    answer_without_memory(rt.alloc(), |alloc, target| {
        first_values(alloc)?;
        refuses_types(alloc)?;
        copies_type()?;
        reads_protocol()?;
        writes_null(alloc, target)
    })
}
