//! Dates of the proleptic Gregorian calendar, times of day, and their texts as PostgreSQL writes
//! them.
#![tactic(auto)]

mod civil;
mod date_time;
mod digits;
pub mod laws;
mod text;

pub use civil::Civil;
pub use date_time::{Clock, DateTime, micros_since};
pub use digits::{len_without_zeros, six_digits, two_digits};
pub use text::{write_clock, write_date, write_timestamp, year_of_era};
