//! The binary formats: for each a function that reads it and one that appends it, over bytes alone.
//!
//! A reader (`..._from_sql`) returns the value that its bytes spell, or the fault of the first
//! check that fails. An appender (`..._to_sql`) appends the bytes of its value. It fails with
//! `Transmit` if a length or a count exceeds a limit, and with `Memory` only if the buffer has less
//! spare room than the bytes to append. An error leaves the buffer's bytes as they were.
//!
//! Appenders are inlined into the conversions, because a call would return its `Result`, with a
//! `Fault` of about 100 bytes, through memory.

mod arrays;
mod bits;
mod bytea;
mod civil;
mod counts;
mod frames;
mod hstore;
mod interval;
pub mod laws;
mod lsn;
mod network;
mod numbers;
mod texts;
mod timestamps;
mod uuids;

pub use arrays::{ArrayCells, array_from_sql, array_to_sql};
pub use bits::{Varbit, varbit_from_sql, varbit_to_sql, without_pad};
pub use bytea::{bytea_from_sql, bytea_to_sql};
pub use civil::{date_from_sql, date_to_sql, time_from_sql, time_to_sql};
pub use counts::{split_cell, split_number};
pub use frames::{MAX_LEN, frame_to_sql, set_number};
pub use hstore::{HstoreEntries, hstore_from_sql, hstore_to_sql};
pub use interval::{interval_from_sql, interval_to_sql};
pub use lsn::{lsn_from_sql, lsn_to_sql};
pub use network::{Inet, inet_from_sql, inet_to_sql, macaddr_from_sql, macaddr_to_sql};
pub use numbers::{
    bool_from_sql, bool_to_sql, char_from_sql, char_to_sql, int2_from_sql, int2_to_sql,
    int4_from_sql, int4_to_sql, int8_from_sql, int8_to_sql, oid_from_sql, oid_to_sql,
};
pub use texts::{
    lquery_from_sql, lquery_to_sql, ltree_from_sql, ltree_to_sql, ltxtquery_from_sql,
    ltxtquery_to_sql, text_from_sql, text_to_sql,
};
pub use timestamps::{timestamp_from_sql, timestamp_to_sql};
pub use uuids::{uuid_from_sql, uuid_to_sql};
