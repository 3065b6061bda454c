//! Lists.

use pg_numbers::types::{float4_array_type, float8_array_type};
use pg_numbers::{Float4, Float8};
use std::test::Fail;
use test_support::spells;

/// {1.5,NULL,-0} of FLOAT8.
const LIST: &[u8] = b"\0\0\0\x01\0\0\0\x01\0\0\x02\xbd\0\0\0\x03\0\0\0\x01\
    \0\0\0\x08\x3f\xf8\0\0\0\0\0\0\xff\xff\xff\xff\0\0\0\x08\x80\0\0\0\0\0\0\0";

/// {1.5,NaN,-0} of FLOAT4.
const FLOAT4_LIST: &[u8] = b"\0\0\0\x01\0\0\0\0\0\0\x02\xbc\0\0\0\x03\0\0\0\x01\
    \0\0\0\x04\x3f\xc0\0\0\0\0\0\x04\x7f\xc0\0\0\0\0\0\x04\x80\0\0\0";

#[test]
fn lists_are_arrays(rt: HostRuntime) -> Result<(), Fail> {
    let alloc = rt.alloc();
    let list = vec![in alloc; Some(Float8::from(1.5)), None, Some(Float8::from(-0.0))]?;
    spells(alloc, &float8_array_type(alloc)?, &[(list, LIST)])?;
    let list = vec![in alloc;
        Float4::from(1.5),
        Float4::from(f32::NAN),
        Float4::from(-0.0),
    ]?;
    spells(alloc, &float4_array_type(alloc)?, &[(list, FLOAT4_LIST)])
}
