//! Lists and arrays that are written and read.

use super::cells::{NO_DIMENSION, NULL, ONE_AND_TWO};
use jiff::civil;
use postgres_types::private::BytesMut;
use postgres_types::protocol::{array_from_sql, array_to_sql};
use postgres_types::{Date, Kind, ToSql, Type};
use std::alloc::Global;
use std::boxed::BoxedSlice;
use std::test::Fail;
use test_support::{
    reads, refuses_type, rewrites, same, simple_type, user_type, writes, writes_by_room,
};

const INTS: Type = Type::INT4_ARRAY;

/// Tests that 1 and 2 are written, from this type of list, and with room without allocating.
fn is_written<T: ToSql>(alloc: Global, value: &T) -> Result<(), Fail> {
    writes(alloc, value, &INTS, &ONE_AND_TWO)?;
    writes_by_room(alloc, &INTS, value, &ONE_AND_TWO)
}

#[test]
fn each_form_of_a_list_is_written(rt: HostRuntime) -> Result<(), Fail> {
    let alloc = rt.alloc();
    let list: Vec<i32> = Vec::from_slice(alloc, &[1, 2])?;
    is_written(alloc, &list)?;
    is_written(alloc, &list.as_slice())?;
    is_written(alloc, &[1i32, 2])?;
    is_written(alloc, &list.into_boxed_slice())
}

/// The array of 7 with the OID of text.
const TEXT: [u8; 28] = [
    0, 0, 0, 1, 0, 0, 0, 0, 0, 0, 0, 0x19, 0, 0, 0, 1, 0, 0, 0, 1, 0, 0, 0, 4, 0, 0, 0, 7,
];

/// The array of 7 with the OID of int4.
const INT: [u8; 28] = [
    0, 0, 0, 1, 0, 0, 0, 0, 0, 0, 0, 0x17, 0, 0, 0, 1, 0, 0, 0, 1, 0, 0, 0, 4, 0, 0, 0, 7,
];

#[test]
fn lists_are_rewritten_with_the_type_of_their_elements(rt: HostRuntime) -> Result<(), Fail> {
    let alloc = rt.alloc();
    reads(alloc, &INTS, &TEXT, vec![in alloc; 7i32]?)?;
    rewrites::<Vec<i32>>(alloc, &INTS, &TEXT, &INT)?;
    rewrites::<BoxedSlice<i32>>(alloc, &INTS, &TEXT, &INT)?;
    rewrites::<[i32; 1]>(alloc, &INTS, &TEXT, &INT)
}

/// The array of NULL, whose length is 80000000.
const LEAST_LENGTH: [u8; 24] = [
    0, 0, 0, 1, 0, 0, 0, 1, 0, 0, 0, 0x17, 0, 0, 0, 1, 0, 0, 0, 1, 0x80, 0, 0, 0,
];

#[test]
fn elements_may_be_null(rt: HostRuntime) -> Result<(), Fail> {
    let alloc = rt.alloc();
    let list = vec![in alloc; None::<i32>]?;
    writes(alloc, &list, &INTS, &NULL)?;
    reads(alloc, &INTS, &LEAST_LENGTH, list)?;
    rewrites::<Vec<Option<i32>>>(alloc, &INTS, &LEAST_LENGTH, &NULL)
}

/// An array of one dimension without elements.
const EMPTY: [u8; 20] = [
    0, 0, 0, 1, 0, 0, 0, 0, 0, 0, 0, 0x17, 0, 0, 0, 0, 0, 0, 0, 1,
];

#[test]
fn lists_may_be_empty(rt: HostRuntime) -> Result<(), Fail> {
    let list: Vec<i32> = Vec::new(rt.alloc());
    writes(rt.alloc(), &list, &INTS, &EMPTY)?;
    reads(rt.alloc(), &INTS, &NO_DIMENSION, list)
}

/// The `INT2_VECTOR` of 5.
const FIVE: [u8; 26] = [
    0, 0, 0, 1, 0, 0, 0, 0, 0, 0, 0, 0x15, 0, 0, 0, 1, 0, 0, 0, 0, 0, 0, 0, 2, 0, 5,
];

/// The array of two `INT2_VECTOR`s, one with 5 and an empty one.
const VECTORS: [u8; 74] = [
    0, 0, 0, 1, 0, 0, 0, 0, 0, 0, 0, 0x16, 0, 0, 0, 2, 0, 0, 0, 1, //
    0, 0, 0, 0x1a, 0, 0, 0, 1, 0, 0, 0, 0, 0, 0, 0, 0x15, 0, 0, 0, 1, 0, 0, 0, 0, //
    0, 0, 0, 2, 0, 5, //
    0, 0, 0, 0x14, 0, 0, 0, 1, 0, 0, 0, 0, 0, 0, 0, 0x15, 0, 0, 0, 0, 0, 0, 0, 0,
];

#[test]
fn vectors_begin_at_0_also_in_a_list(rt: HostRuntime) -> Result<(), Fail> {
    let alloc = rt.alloc();
    let five: Vec<i16> = Vec::from_slice(alloc, &[5])?;
    writes(alloc, &five, &Type::INT2_VECTOR, &FIVE)?;
    let element = Kind::Array(Type::INT2_VECTOR);
    let ty = user_type(alloc, "vectors", 100_010, element, "public")?;
    let lists = vec![in alloc; five, Vec::new(alloc)]?;
    writes(alloc, &lists, &ty, &VECTORS)
}

/// The `DATE_ARRAY` of infinity.
const INFINITY: [u8; 28] = [
    0, 0, 0, 1, 0, 0, 0, 0, 0, 0, 4, 0x3a, 0, 0, 0, 1, 0, 0, 0, 1, 0, 0, 0, 4, 0x7f, 0xff, 0xff,
    0xff,
];

#[test]
fn lists_of_dates_have_infinities(rt: HostRuntime) -> Result<(), Fail> {
    let alloc = rt.alloc();
    let dates: Vec<Date<civil::Date>> = vec![in alloc; Date::PosInfinity]?;
    writes(alloc, &dates, &Type::DATE_ARRAY, &INFINITY)
}

/// The cell of the first element of the array of 1 and 2.
const ONE: Option<&[u8]> = Some(&[0, 0, 0, 1]);

#[test]
fn an_array_is_appended_and_its_elements_are_taken(rt: HostRuntime) -> Result<(), Fail> {
    let alloc = rt.alloc();
    let scratch = [0, 0, 0, 1, 0, 0, 0, 2];
    let mut out = BytesMut::new(alloc);
    array_to_sql(alloc, 1, 23, &scratch, &[Some(4), Some(4)], &mut out)?;
    same(out.as_slice(), ONE_AND_TWO.as_slice())?;
    let mut cells = array_from_sql(alloc, &ONE_AND_TWO)?;
    same(cells.next().transpose()?, Some(ONE))
}

/// A built-in type is refused without memory, and a user-defined one is copied to the fault.
#[test]
fn lists_refuse_user_defined_types(rt: HostRuntime) -> Result<(), Fail> {
    let odd = simple_type(rt.alloc(), "odd", 99_999, "public")?;
    refuses_type(rt.alloc(), &[1i32, 2], &odd, "[T; N]")
}
