//! FLOAT4 and FLOAT8, by what the tests are of. Cells and texts are those of PostgreSQL 15.

mod cells;
mod lists;
mod order;
mod parsing;
mod texts;
