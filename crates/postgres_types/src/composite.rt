//! Composite types, whose cells are records.
//!
//! The cell of a record, as `record_recv` and `record_send` lay it out, has the number of the
//! fields in 4 bytes and then, for each field in order, the OID of its type in 4 bytes and the
//! frame of its cell: a length in 4 bytes, -1 for NULL, and as many bytes. The numbers are
//! big-endian.
//!
//! A struct whose fields are those of a composite type implements [`Record`]; then [`Composite`]
//! around it is read and written, and nothing has to be proved. A conversion that is written by
//! hand can call the functions that this is made of, such as [`read_field`].

mod and4;
mod and8;
mod fields;
pub mod laws;
mod reading;
mod record;
mod writing;

pub use and4::And4;
pub use and8::And8;
pub use fields::{And, End, FieldRefs, FromFields, PairedFields, ToFields};
pub use reading::{fields_of, read_end, read_field, read_field_count};
pub use record::{Composite, Record, is_record};
pub use writing::{field_count_to_sql, field_to_sql};

/// The fields of a row, by their names: `row!(name, price)` is `And(name, And(price, End))`, and
/// `row!(self => name, price)` is `And(&self.name, And(&self.price, End))`. Of more fields, each
/// eight are an `And8`, then four an `And4`, and each of the rest an `And`.
#[macro_export]
macro_rules! row {
    () => { $crate::composite::End };
    ($of:ident =>) => { $crate::composite::End };
    ($of:ident => $a:ident, $b:ident, $c:ident, $d:ident, $e:ident, $f:ident, $g:ident, $h:ident
        $(, $other:ident)*) => {
        $crate::composite::And8(
            &$of.$a, &$of.$b, &$of.$c, &$of.$d, &$of.$e, &$of.$f, &$of.$g, &$of.$h,
            $crate::row!($of => $($other),*))
    };
    ($of:ident => $a:ident, $b:ident, $c:ident, $d:ident $(, $other:ident)*) => {
        $crate::composite::And4(
            &$of.$a, &$of.$b, &$of.$c, &$of.$d, $crate::row!($of => $($other),*))
    };
    ($of:ident => $first:ident $(, $other:ident)*) => {
        $crate::composite::And(&$of.$first, $crate::row!($of => $($other),*))
    };
    ($a:ident, $b:ident, $c:ident, $d:ident, $e:ident, $f:ident, $g:ident, $h:ident
        $(, $other:ident)*) => {
        $crate::composite::And8($a, $b, $c, $d, $e, $f, $g, $h, $crate::row!($($other),*))
    };
    ($a:ident, $b:ident, $c:ident, $d:ident $(, $other:ident)*) => {
        $crate::composite::And4($a, $b, $c, $d, $crate::row!($($other),*))
    };
    ($first:ident $(, $other:ident)*) => {
        $crate::composite::And($first, $crate::row!($($other),*))
    };
}

/// Builds a struct from a row of its fields: `from_row!(row => Item { name, price })` is
/// `let And(name, And(price, End)) = row; Item { name, price }`.
#[macro_export]
macro_rules! from_row {
    ($row:ident => $name:ident { $($field:ident),+ $(,)? }) => {{
        let $crate::row!($($field),+) = $row;
        $name { $($field),+ }
    }};
}
