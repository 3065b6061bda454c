//! Tests of the calendar.

use pg_calendar::Civil;
use std::test::Fail;
use test_support::same;

/// Days from 1970-01-01 and their dates, by PostgreSQL: `date '..' - date '1970-01-01'`.
const DAYS: [(i64, i64, u32, u32); 12] = [
    (0, 1970, 1, 1),
    (-1, 1969, 12, 31),
    (10_957, 2000, 1, 1),
    (11_016, 2000, 2, 29),
    (11_017, 2000, 3, 1),
    (-25_508, 1900, 3, 1),
    (-719_162, 1, 1, 1),
    (-719_163, 0, 12, 31),
    (-719_528, 0, 1, 1),
    (-2_440_222, -4712, 11, 24),
    (106_762_939, 294_276, 12, 31),
    (2_145_042_905, 5_874_897, 12, 31),
];

#[test]
fn days_have_their_dates(_rt: HostRuntime) -> Result<(), Fail> {
    for (number, year, month, day) in DAYS {
        let date = Civil { year, month, day };
        same(Civil::from_day(number), date)?;
        same(date.to_day(), Some(number))?;
    }
    Ok(())
}
