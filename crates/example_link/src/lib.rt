//! A client's connection to a server, over streams that the caller brings.
//!
//! [`Link`] sends messages together and receives them one by one. It starts a session, runs
//! statements, selects rows, prepares and executes statements, and copies rows to the server; a
//! client's own messages go to [`Link::out`].
#![tactic(auto)]

mod copies;
mod link;
mod statements;

pub use link::{Answer, Link};
