//! Log sequence numbers: their texts and their cells.

use postgres_types::{PgLsn, Type};
use std::test::Fail;
use test_support::{debugs, displays, has_cells, same};

/// A text, and the text of the position that it is parsed to, or of the fault.
const TEXTS: [(&str, &str); 7] = [
    ("16/B374D848", "16/B374D848"),
    ("16/b374d848", "16/B374D848"),
    ("1FFFFFFFF/0", "FFFFFFFF/0"),
    ("0/100000000", "1/0"),
    ("+a/+b", "A/B"),
    ("16", "ParseLsnError(())"),
    ("+/1", "ParseLsnError(())"),
];

#[test]
fn texts_are_parsed(rt: HostRuntime) -> Result<(), Fail> {
    for (text, shown) in TEXTS {
        match text.parse::<PgLsn>() {
            Ok(lsn) => displays(rt.alloc(), &lsn, shown)?,
            Err(error) => debugs(rt.alloc(), &error, shown)?,
        }
    }
    Ok(())
}

/// The cell of 16/B374D848.
const CELL: [u8; 8] = [0, 0, 0, 0x16, 0xB3, 0x74, 0xD8, 0x48];

#[test]
fn positions_are_numbers(rt: HostRuntime) -> Result<(), Fail> {
    let lsn = PgLsn::from(0x16_B374_D848);
    same("16/B374D848".parse::<PgLsn>().ok(), Some(lsn))?;
    same(u64::from(lsn), 0x16_B374_D848)?;
    debugs(rt.alloc(), &lsn, "16/B374D848")?;
    has_cells(rt.alloc(), &Type::PG_LSN, &[(lsn, CELL.as_slice())], &[])
}
