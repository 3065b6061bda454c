//! PostgreSQL's epoch, 2000-01-01 00:00:00: its dates and timestamps are counted from it.

/// 2000-01-01, in days from 1970-01-01.
pub const POSTGRES_EPOCH_DAY: i32 = 10_957;

/// 2000-01-01 00:00:00, in seconds from 1970-01-01 00:00:00.
pub const POSTGRES_EPOCH_SECS: i64 = 946_684_800;

/// 2000-01-01 00:00:00, in nanoseconds from 1970-01-01 00:00:00.
pub const POSTGRES_EPOCH_NANOS: i128 = 946_684_800_000_000_000;
