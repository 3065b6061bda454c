//! Streams of lines: reading them in blocks, and writing an answer to each line.
#![tactic(auto)]

pub mod blocks;
pub mod lines;
pub mod split;
