//! Types of PostgreSQL that the library leaves out, as types that a user adds: each accepts its
//! Postgres type by the OID, and has the traits and the laws of the library, and its text.
#![tactic(auto)]

mod macaddr8;

pub use macaddr8::{MacAddress8, same_mac_address8};
