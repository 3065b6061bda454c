//! A row is written without allocating, into room that was reserved for it.
ghost use Rattle.std.specs.Prelude.{◌≤◌, ◌+◌, length};
ghost use Rattle.postgres_types.specs.Faults.{NeverMemory};

use postgres_types::private::BytesMut;
use postgres_types::{Fault, Type, frame_value};
use std::alloc::Global;
use std::test::Fail;
use test_support::{hoard, same};

/// Appends the fields of a row: an id, a name, and whether it is paid. Each takes 4 bytes for its
/// length, and 8 bytes, the bytes of the name, and 1 byte. If the buffer has room for them, it does
/// not allocate.
fn append_row(
    alloc: Global,
    id: i64,
    name: &str,
    is_paid: bool,
    out: &mut BytesMut,
) -> Result<(), Fault>
    requires { (4 + 8) + (4 + length name.now) + (4 + 1) ≤ out.old.spare }
    ensures { NeverMemory result }
{
    frame_value(alloc, &id, &Type::INT8, out)?;
    frame_value(alloc, &name, &Type::TEXT, out)?;
    frame_value(alloc, &is_paid, &Type::BOOL, out)
}

#[test]
fn a_row_is_written_into_its_room(rt: HostRuntime) -> Result<(), Fail> {
    let alloc = rt.alloc();
    let mut out = BytesMut::with_capacity(alloc, 24)?;
    let blocks = hoard(alloc)?;
    let appended = append_row(alloc, 7, "nut", true, &mut out);
    drop(blocks);
    appended?;
    let row = b"\0\0\0\x08\0\0\0\0\0\0\0\x07\0\0\0\x03nut\0\0\0\x01\x01";
    same(out.as_slice(), row)
}
