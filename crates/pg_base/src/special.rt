//! Dates and timestamps that may be infinite.

pub mod laws;
mod text;

/// A date, or PostgreSQL's `infinity` or `-infinity`, whose cells are the greatest and the least
/// number of 4 bytes (`date_recv`, `date_send`).
#[derive(Debug, Clone, Copy, PartialEq, Eq, Drop)]
pub enum Date<T> {
    /// `infinity`, which is later than every other date.
    PosInfinity,
    /// `-infinity`, which is earlier than every other date.
    NegInfinity,
    /// A date that is not infinite.
    Value(T),
}

/// A timestamp, or PostgreSQL's `infinity` or `-infinity`, whose cells are the greatest and the
/// least number of 8 bytes (`timestamp_recv`, `timestamp_send`, `timestamptz_recv`,
/// `timestamptz_send`).
#[derive(Debug, Clone, Copy, PartialEq, Eq, Drop)]
pub enum Timestamp<T> {
    /// `infinity`, which is later than every other timestamp.
    PosInfinity,
    /// `-infinity`, which is earlier than every other timestamp.
    NegInfinity,
    /// A timestamp that is not infinite.
    Value(T),
}
