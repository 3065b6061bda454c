//! Parameters of any types, and their frames in a Bind message.

use postgres_types::private::BytesMut;
use postgres_types::{ToSql, Type, params_to_sql};
use std::alloc::Global;
use std::test::Fail;
use test_support::code::WRONG_TYPE;
use test_support::{binds, same};

#[test]
fn parameters_are_framed_in_their_order(rt: HostRuntime) -> Result<(), Fail> {
    let alloc = rt.alloc();
    binds(alloc, &[], &[], &[])?;
    let params: [Box<dyn ToSql>; 3] = [
        Box::new(alloc, 7i32)?,
        Box::new(alloc, None::<String>)?,
        Box::new(alloc, String::new(alloc))?,
    ];
    let types = [Type::INT4, Type::TEXT, Type::TEXT];
    let frames = [0u8, 0, 0, 4, 0, 0, 0, 7, 0xff, 0xff, 0xff, 0xff, 0, 0, 0, 0];
    binds(alloc, &params, &types, &frames)
}

#[test]
fn a_boxed_list_is_framed(rt: HostRuntime) -> Result<(), Fail> {
    let alloc = rt.alloc();
    let params: [Box<dyn ToSql>; 1] = [Box::new(alloc, vec![in alloc; 1i32, 2]?)?];
    let frame = [
        0u8, 0, 0, 0x24, 0, 0, 0, 1, 0, 0, 0, 0, 0, 0, 0, 0x17, 0, 0, 0, 2, 0, 0, 0, 1, //
        0, 0, 0, 4, 0, 0, 0, 1, 0, 0, 0, 4, 0, 0, 0, 2,
    ];
    binds(alloc, &params, &[Type::INT4_ARRAY], &frame)
}

#[test]
fn three_hundred_parameters_are_framed(rt: HostRuntime) -> Result<(), Fail> {
    let alloc = rt.alloc();
    let mut params: Vec<Box<dyn ToSql>> = Vec::new(alloc);
    let mut types = Vec::new(alloc);
    for _ in 0..300 {
        params.push(Box::new(alloc, None::<i32>)?)?;
        types.push(Type::INT4)?;
    }
    binds(alloc, params.as_slice(), types.as_slice(), &[0xff; 1_200])
}

/// Tests that the parameter at this index is refused with the fault of this number, and nothing is
/// appended.
fn refuses_param(
    alloc: Global,
    params: &[Box<dyn ToSql>],
    types: &[Type],
    refusal: (usize, u32),
) -> Result<(), Fail> {
    if params.len() != types.len() {
        return Err(Fail::from("another number of types"));
    }
    let mut out = BytesMut::copy_from_slice(alloc, b"before")?;
    let refused = params_to_sql(alloc, params, types, &mut out).err();
    same(
        refused.map(|(place, fault)| (place, fault.code())),
        Some(refusal),
    )?;
    same(out.as_slice(), b"before")
}

#[test]
fn the_first_refused_parameter_is_named(rt: HostRuntime) -> Result<(), Fail> {
    let alloc = rt.alloc();
    let params: [Box<dyn ToSql>; 3] = [
        Box::new(alloc, 7i32)?,
        Box::new(alloc, 7i32)?,
        Box::new(alloc, String::new(alloc))?,
    ];
    let types = [Type::INT4, Type::TEXT, Type::TEXT];
    refuses_param(alloc, &params, &types, (1, WRONG_TYPE))?;
    refuses_param(alloc, &params[..1], &[Type::TEXT], (0, WRONG_TYPE))
}
