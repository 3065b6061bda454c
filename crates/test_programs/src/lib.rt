//! The programs: pgcell with lines, and COPY in both directions; and the parts of a client: rows,
//! Bind messages and its catalog.
#![tactic(auto)]

#[cfg(test)]
mod tests;
