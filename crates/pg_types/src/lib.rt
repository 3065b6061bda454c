//! Postgres types, the faults of conversions, and the formats of values.
#![tactic(auto)]

pub mod fault;
pub mod format;
pub mod types;
