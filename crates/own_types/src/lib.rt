//! User-defined types, as docs/OWN-TYPES.md shows them.
#![tactic(auto)]

pub mod composite;
pub mod domain;
pub mod enumerated;
pub mod laws;
pub mod nested_composite;
pub mod newtype;
pub mod null_value;
pub mod wrapper;
