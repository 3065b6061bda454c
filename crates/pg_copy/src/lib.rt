//! Conversion between PostgreSQL's binary COPY and the text format of COPY.
//!
//! [`read::read`] converts a binary COPY to lines of text, and [`write::write`] lines of text to a
//! binary COPY, both in blocks. Values go through the conversions of `postgres_types` and the texts
//! of `pg_text`. [`arguments`] reads the command line of the programs that do it.
#![tactic(auto)]

pub mod arguments;
pub mod columns;
pub mod copy_fault;
mod escapes;
pub mod laws;
mod parse;
pub mod read;
mod show;
mod type_names;
pub mod types;
pub mod write;
