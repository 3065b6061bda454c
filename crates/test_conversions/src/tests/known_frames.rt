//! A client proves what it sends: the bytes of a parameter in a box.
ghost use Rattle.std.specs.Prelude.{◌≡◌, ◌++◌, IfOk, pos};
ghost use Rattle.std.specs.Int.{w32};
ghost use Rattle.postgres_types.specs.Cells.{be};

use postgres_types::private::BytesMut;
use postgres_types::{Fault, ToSql, Type, params_to_sql};
use std::alloc::Global;
use std::test::Fail;
use test_support::same;

/// Binds an id: its length in 4 bytes, and its 4 bytes.
fn bind_id(alloc: Global, id: i32, out: &mut BytesMut) -> Result<(), Fault>
    ensures { IfOk result (λ _. out.new.items ≡ out.old.items ++ (be w32 (pos 4) ++ be w32 id)) }
{
    let params: [Box<dyn ToSql>; 1] = [Box::new(alloc, id)?];
    match params_to_sql(alloc, &params, &[Type::INT4], out) {
        Ok(()) => Ok(()),
        Err((_place, fault)) => Err(fault),
    }
}

#[test]
fn an_id_is_bound(rt: HostRuntime) -> Result<(), Fail> {
    let mut out = BytesMut::new(rt.alloc());
    bind_id(rt.alloc(), 7, &mut out)?;
    same(out.as_slice(), &[0, 0, 0, 4, 0, 0, 0, 7])
}
