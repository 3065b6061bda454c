//! Lists, arrays and boxes; what a written value is read back as, in every nesting; the calls of
//! clients: a Bind message, a DataRow, a binary COPY, framed cells and runs of values; and
//! user-defined types: those of the module `odd`, in every wrapper, of docs/OWN-TYPES.md and of
//! `pg_record`.
#![tactic(auto)]

#[cfg(test)]
mod tests;
