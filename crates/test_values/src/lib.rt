//! The types of the library, with tables of PostgreSQL's formats, by its public names: numbers,
//! those of `pg_numbers` too, texts and bytes; bit strings, addresses, MAC addresses, UUIDs and log
//! sequence numbers; JSON documents and hstore maps; dates, times, timestamps and intervals. Types,
//! kinds, fields and faults, with their tables and texts; calls that do not allocate; and tests
//! that fail as they should.
#![tactic(auto)]

#[cfg(test)]
mod tests;
