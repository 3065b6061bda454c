//! NUMERIC, FLOAT4 and FLOAT8, as types that a user adds: each Postgres type is made by
//! `Type::new`, and each Rust type has the traits and the laws of the library.
#![tactic(auto)]

mod catalog;
mod float;
mod numeric;
pub mod types;

pub use float::{Float4, Float8, FloatText, ParseFloatError, TEXT_LEN};
pub use numeric::{Decimal, MAX_SCALE, Numeric};
