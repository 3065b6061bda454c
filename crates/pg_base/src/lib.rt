//! Postgres types, faults, and the byte formats of plain values.
//!
//! A reader of [`protocol`] returns the value that its bytes spell, or the fault of the first check
//! that fails. An appender appends its value's bytes, or nothing.
#![tactic(auto)]

pub mod acceptance;
pub mod bits;
pub mod calendar;
pub mod epoch;
pub mod interval;
pub mod json;
pub mod lsn;
pub mod network;
pub mod protocol;
pub mod special;
pub mod unix_time;

pub use pg_types::{fault, format, types};
