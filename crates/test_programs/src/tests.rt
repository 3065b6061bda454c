//! The tests, by program, and the streams that they share.

mod client;
mod copy;
mod fake_streams;
mod runs;
