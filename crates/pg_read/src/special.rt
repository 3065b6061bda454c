//! Reading dates and timestamps that may be infinite.

pub(crate) mod date;
pub(crate) mod timestamp;
