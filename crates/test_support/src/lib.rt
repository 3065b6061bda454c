//! Helpers of the tests: rows of a value and its cell, which are tested with the public functions
//! of the library. Each helper fails with what was found and what was expected.
#![tactic(auto)]

pub mod code;
mod formats;
mod memory;
mod params;
mod plain;
mod reading;
mod refusals;
mod texts;
mod types;
pub mod without_memory;
mod word;
mod writing;

pub use formats::has_cells;
pub use memory::hoard;
pub use params::binds;
pub use plain::{appends, fault_code};
pub use reading::{read, reads, refusal, refuses, refuses_fronts};
pub use refusals::refuses_both;
use std::fmt::Debug;
use std::test::Fail;
pub use texts::{debugs, displays};
pub use types::{accepts, simple_type, unix, user_type};
pub use without_memory::{null_takes_no_memory, takes_no_memory, writes_by_room};
pub use word::Word;
pub use writing::{reads_back, refuses_type, refuses_value, rewrites, spells, writes, writes_null};

/// The content of a buffer before a function writes to it.
const BEFORE: &[u8] = b"before";

/// What was found and what was expected.
#[derive(Debug, Drop)]
struct Differs<T> {
    found: T,
    expected: T,
}

/// Fails if the two are not equal.
pub fn same<T: PartialEq + Debug + Drop>(found: T, expected: T) -> Result<(), Fail> {
    if found == expected {
        Ok(())
    } else {
        Err(Fail::from(Differs { found, expected }))
    }
}

/// Fails with that text if the condition is false.
pub fn holds(condition: bool, text: &'static str) -> Result<(), Fail> {
    if condition {
        Ok(())
    } else {
        Err(Fail::from(text))
    }
}
