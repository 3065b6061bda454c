//! The binary format of COPY: a header, a tuple for each row, and a trailer (documentation of the
//! command COPY, "Binary Format").
//!
//! [`take_header`] takes the header, up to its extension, from the front of the bytes, and
//! [`front_of`] returns what comes after it. Truncated bytes are not a fault, since more may come.
#![tactic(auto)]

mod header;
pub mod laws;
mod tuples;

pub use header::{HEADER, HeaderFault, take_header};
pub use tuples::{Front, TRAILER, TupleFault, front_of, is_count};
