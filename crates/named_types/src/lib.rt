//! The names of types on a line of pgcell: a base name, possibly followed by `?`, `[]` or `?[]`.
#![tactic(auto)]

mod base;
pub mod laws;
mod name;

pub use base::Base;
pub use name::{Form, Name};
