//! Writing: from a type and a value to a cell.
//!
//! [`to_sql`](to_sql::ToSql::to_sql) appends the bytes of a value's cell. NULL and an error leave
//! the buffer's bytes as they were.
#![tactic(auto)]

mod arrays;
mod bits;
mod boxes;
mod bytea;
mod civil;
mod hstore;
mod interval;
mod json;
pub mod laws;
mod lsn;
mod network;
mod numbers;
mod options;
pub mod params;
mod references;
mod special;
mod texts;
pub mod to_sql;
mod unix_time;
mod uuids;
