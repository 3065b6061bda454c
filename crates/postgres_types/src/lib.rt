//! Typed values and PostgreSQL binary cells.
//!
//! [`FromSql`] reads a value from a Postgres type and a cell; [`ToSql`] appends the cell of a value
//! to a buffer. A cell is NULL or a list of bytes, in the binary format of PostgreSQL's send and
//! receive functions.
#![tactic(auto)]

pub mod composite;
pub mod enums;
pub mod json_text;
pub mod newtype;
pub mod odd;
mod paired;
mod rewriting;

pub use json_text::JsonText;
pub use paired::{Finite, Paired};
pub use pg_base::bits::BitVec;
pub use pg_base::fault::{Fault, WasNull, WrongType};
pub use pg_base::format::{Format, IsNull};
pub use pg_base::interval::Interval;
pub use pg_base::lsn::{ParseLsnError, PgLsn};
pub use pg_base::network::{IpCidr, IpInet, MacAddress};
pub use pg_base::protocol;
pub use pg_base::special::{Date, Timestamp};
pub use pg_base::types::{Field, Kind, KindRef, Oid, PgType as Type};
pub use pg_base::unix_time::UnixTime;
pub use pg_read::from_sql::{FromSql, from_sql_nullable};
pub use pg_read::private;
pub use pg_read::private::{BytesMut, read_be_i32, read_value, read_values, take_cell};
pub use pg_write::params::{frame_value, params_to_sql};
pub use pg_write::to_sql::{ToSql, check_type, to_sql_checked_as, wrong_type};
pub use rewriting::rewrite;
