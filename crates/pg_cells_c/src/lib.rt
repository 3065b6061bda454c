//! PostgreSQL's binary cells for C. `include/pg_cells.h` declares the functions that are exported
//! here and describes each of them.
//!
//! A reader stores the value of the cell and returns 0; or it returns the number of the fault of
//! the first check that the cell fails, and stores nothing. A writer returns the length of the
//! cell, and writes it to the caller's buffer if there is room for all of it. The items of a cell
//! are read one after another, as offsets and lengths in the cell. No function allocates.
//!
//! The library can be linked without an allocator. So no function may contain the code that drops a
//! [`Fault`](pg_types::fault::Fault), and every function that returns one is inlined.
#![tactic(auto)]

mod arrays;
mod bits;
mod buffers;
mod builders;
mod date_parts;
mod dates;
mod faults;
mod frames;
mod hstore;
mod items;
mod laws;
mod network;
mod numbers;
mod records;
mod rewrite;
mod spans;
mod store;
mod texts;
mod uuids;
