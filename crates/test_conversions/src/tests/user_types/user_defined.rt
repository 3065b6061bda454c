//! The newtype, the value for NULL and the wrapper of docs/OWN-TYPES.md.

use own_types::domain::Percentage;
use own_types::newtype::Days;
use own_types::null_value::Rating;
use own_types::wrapper::Tagged;
use postgres_types::Type;
use postgres_types::newtype::Transparent;
use std::test::Fail;
use test_support::{read, same, spells, writes_null};

#[test]
fn days_are_a_date(rt: HostRuntime) -> Result<(), Fail> {
    let rows: [(Days, &[u8]); 2] = [(Days(8766), &[0, 0, 0x22, 0x3e]), (Days(-1), &[0xff; 4])];
    spells(rt.alloc(), &Type::DATE, &rows)
}

#[test]
fn ratings_are_a_number_or_null(rt: HostRuntime) -> Result<(), Fail> {
    let row = (Rating::Stars(5), [0, 5].as_slice());
    spells(rt.alloc(), &Type::INT2, &[row])?;
    writes_null(rt.alloc(), &Rating::Unrated, &Type::INT2)?;
    same(read(rt.alloc(), &Type::INT2, None)?, Rating::Unrated)
}

#[test]
fn tags_are_their_contents(rt: HostRuntime) -> Result<(), Fail> {
    let full = Tagged(Transparent(Percentage(100)));
    spells(rt.alloc(), &Type::INT2, &[(full, [0, 100].as_slice())])?;
    writes_null(rt.alloc(), &Tagged(Rating::Unrated), &Type::INT2)
}
