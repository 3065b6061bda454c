//! The text of a `UnixTime`.
ghost use Rattle.std.specs.Prelude.{Some};
ghost use Rattle.pg_base.specs.DateTexts.{unix_time_text};

use super::UnixTime;
use pg_calendar::{DateTime, write_timestamp};
use std::fmt;

/// Writes the timestamp in UTC without a zone, like `2000-01-31 23:59:59.5` (`timestamp_out`). It
/// is rounded down to microseconds.
impl fmt::Display for UnixTime {
    ghost output = { λ v. Some (unix_time_text v) };

    fn fmt<W: fmt::Write>(&self, f: &mut fmt::Formatter<W>) -> fmt::Result {
        write_timestamp(DateTime::new(self.secs, self.nanos / 1_000), "", f)
    }
}
