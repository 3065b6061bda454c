//! The result of a write, and the format in which a value is sent.

pub mod laws;

/// Whether a written value is NULL.
#[derive(Debug, Clone, Copy, PartialEq, Eq)]
pub enum IsNull {
    /// The value is NULL, and nothing was appended.
    Yes,
    /// The value is not NULL, and its bytes, possibly none, were appended.
    No,
}

/// The format of a parameter, numbered as the format codes of the frontend/backend protocol.
#[derive(Debug, Clone, Copy, PartialEq, Eq)]
pub enum Format {
    /// Text format, code 0.
    Text,
    /// Binary format, code 1.
    Binary,
}
