//! Reads the cell of an int4, and writes a text.
#![tactic(auto)]

use postgres_types::{BytesMut, Fault, Type, frame_value, from_sql_nullable};

fn main(rt: HostRuntime) -> Result<(), Fault> {
    let number: i32 = from_sql_nullable(rt.alloc(), &Type::INT4, Some(&[0, 0, 0, 7]))?;
    let text = format!(in rt.alloc(); "number {number}")?;
    let mut out = BytesMut::new(rt.alloc());
    frame_value(rt.alloc(), &text, &Type::TEXT, &mut out)?;
    println!(rt; "{:?}", out.as_slice()).map_err(|_| Fault::user("no output"))
}
