//! What a client reads and writes: the row of a DataRow message, the rows of a binary COPY, the
//! parameters of a Bind message, and the types of its server.
//!
//! [`Row`] reads columns one after another, in any order, or all at once as a tuple or a struct
//! ([`FromRow`]). [`CopyRows`] and [`CopyParts`] give the rows of a COPY. [`Bind`] appends parameters
//! to a buffer, and [`RowWriter`] the values of a row, each for its type, also those of a tuple or a
//! struct ([`ToRow`]). A fault names the column or
//! the parameter ([`PlacedFault`]), or the row of a COPY ([`CopyFault`]). [`catalog`] makes types
//! from the system catalogs of the server. [`columns`] and [`statement_columns`] make the columns of
//! a RowDescription message, and [`parameter_types`] the types of a ParameterDescription.
#![tactic(auto)]

mod bind;
pub mod catalog;
mod column;
mod copy_iter;
mod copy_parts;
mod copy_rows;
mod described;
mod from_row;
pub mod laws;
mod placed_fault;
mod row;
mod row_index;
mod row_writer;
mod to_row;
mod tuples;

pub use bind::{Bind, MAX_PARAMS};
pub use column::{Column, ColumnName, NAME_LEN};
pub use copy_iter::CopyIter;
pub use copy_parts::CopyParts;
pub use copy_rows::{CopyFault, CopyRows};
pub use described::{
    DescriptionFault, RefusedDescription, columns, parameter_types, statement_columns,
};
pub use from_row::{FromColumns, FromRow};
pub use pg_tuples::{HeaderFault, TupleFault};
pub use placed_fault::{Place, PlacedFault};
pub use row::Row;
pub use row_index::{IndexedRow, RowIndex};
pub use row_writer::{RowWriter, push_copy_header, push_copy_trailer};
pub use to_row::{ColumnRefs, ToColumns, ToRow};
