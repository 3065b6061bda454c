//! Texts of `Display` and `Debug`.

use crate::same;
use std::alloc::Global;
use std::fmt::{Debug, Display};
use std::test::Fail;

/// Tests the text of `Display`.
pub fn displays<T: Display>(alloc: Global, value: &T, text: &str) -> Result<(), Fail> {
    same(format!(in alloc; "{value}")?.as_str(), text)
}

/// Tests the text of `Debug`.
pub fn debugs<T: Debug>(alloc: Global, value: &T, text: &str) -> Result<(), Fail> {
    same(format!(in alloc; "{value:?}")?.as_str(), text)
}
