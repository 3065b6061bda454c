//! FLOAT4 and FLOAT8.
//!
//! A value is the bits of an IEEE 754 number, in 32 or 64 bits. Every bit pattern is a value: both
//! zeros, both infinities, and each NaN with its sign and payload. So what is read is written back
//! byte for byte.

mod decimal;
mod float4;
mod float8;
pub mod laws;
mod order;
mod parse;
mod text;

pub use float4::Float4;
pub use float8::Float8;
pub use parse::ParseFloatError;
pub use text::{FloatText, TEXT_LEN};
