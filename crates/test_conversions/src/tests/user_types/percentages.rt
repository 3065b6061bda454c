//! A constraint, by tests that need no helper; docs/OWN-TYPES.md quotes them.

use own_types::domain::Percentage;
use postgres_types::newtype::Transparent;
use postgres_types::private::BytesMut;
use postgres_types::{Fault, FromSql, IsNull, ToSql, Type};
use std::test::Fail;

#[test]
fn percentages_are_read_back(rt: HostRuntime) -> Result<(), Fail> {
    let alloc = rt.alloc();
    let mut out = BytesMut::new(alloc);
    let is_null = Transparent(Percentage(42)).to_sql(alloc, &Type::INT2, &mut out)?;
    assert_eq!(rt; is_null, IsNull::No);
    assert_eq!(rt; out[..], [0, 42][..]);
    let read = Transparent::<Percentage>::from_sql(alloc, &Type::INT2, &out)?;
    assert_eq!(rt; read.0, Percentage(42));
    Ok(())
}

#[test]
fn other_numbers_are_refused(rt: HostRuntime) -> Result<(), Fail> {
    let alloc = rt.alloc();
    let read = Transparent::<Percentage>::from_sql(alloc, &Type::INT2, &[0, 101]);
    assert_eq!(rt; read.err().map(|fault| fault.code()), Some(21));
    let null = Transparent::<Percentage>::from_sql_null(alloc, &Type::INT2);
    assert!(rt; matches!(null, Err(Fault::WasNull)));
    let mut out = BytesMut::new(alloc);
    let written = Transparent(Percentage(-1)).to_sql(alloc, &Type::INT2, &mut out);
    let fault = written.err().ok_or("written")?;
    assert_eq!(rt; format!(in alloc; "{fault}")?.as_str(), "percentage");
    assert!(rt; out.is_empty());
    Ok(())
}
