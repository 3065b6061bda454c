//! Intervals.
pub mod laws;
mod text;

/// An interval, in the three parts that PostgreSQL keeps apart, because a month has no fixed number
/// of days and a day no fixed number of hours.
///
/// Each part has its own sign. Two intervals are equal if their parts are equal: one month and 30
/// days are different here, while the server's `=` takes them as equal.
#[derive(Debug, Clone, Copy, PartialEq, Eq)]
pub struct Interval {
    /// The microseconds, without the days and months.
    pub microseconds: i64,
    /// The days, without the months.
    pub days: i32,
    /// The months.
    pub months: i32,
}
