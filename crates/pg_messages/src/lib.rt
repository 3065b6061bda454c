//! The messages of PostgreSQL's protocol, version 3 ("Message Formats" in its documentation), over
//! bytes that the caller sends and receives.
//!
//! A call of [`frontend`] appends a message to a buffer. [`backend::take_message`] takes a message off
//! the front of received bytes. Nothing but the buffer is allocated.
#![tactic(auto)]

pub mod authentication;
pub mod backend;
pub mod column;
pub mod command;
mod field;
pub mod frontend;
pub mod laws;
pub mod message;
pub mod notice;
pub mod split;
