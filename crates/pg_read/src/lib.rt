//! Reading: from a type and a cell to a value.
//!
//! [`from_sql_nullable`](from_sql::from_sql_nullable) reads a cell (`None` is NULL). It returns the
//! value, or the fault that refuses the cell.
#![tactic(auto)]

mod arrays;
mod bits;
mod boxes;
mod bytea;
mod civil;
pub mod from_sql;
mod hstore;
mod interval;
mod json;
pub mod laws;
mod lsn;
mod network;
mod numbers;
mod options;
pub mod private;
mod special;
mod texts;
mod unix_time;
mod uuids;
