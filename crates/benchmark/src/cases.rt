//! The cases, by name.

use crate::work::{Made, Way, Work};
use crate::{columns, dates, documents, lists, maps, numbers, records, small_values, texts, types};
use postgres_types::private::BytesMut;
use std::alloc::Global;

/// The names of the cases, except those of a megabyte and more. A conversion is read and written.
pub const NAMES: &[&str] = &[
    "read-bool",
    "write-bool",
    "read-char",
    "write-char",
    "read-int2",
    "write-int2",
    "read-int4",
    "write-int4",
    "read-int8",
    "write-int8",
    "read-oid",
    "write-oid",
    "read-pg_lsn",
    "write-pg_lsn",
    "read-int4?",
    "write-int4?",
    "read-float8",
    "write-float8",
    "read-text",
    "write-text",
    "read-text-borrowed",
    "write-text-borrowed",
    "read-ltree",
    "write-ltree",
    "read-bytea",
    "write-bytea",
    "read-bytea-borrowed",
    "write-bytea-borrowed",
    "read-varbit",
    "write-varbit",
    "read-addr",
    "write-addr",
    "read-macaddr",
    "write-macaddr",
    "read-uuid",
    "write-uuid",
    "read-date",
    "write-date",
    "read-date_inf",
    "write-date_inf",
    "read-time",
    "write-time",
    "read-timestamp",
    "write-timestamp",
    "read-timestamptz",
    "write-timestamptz",
    "read-unix",
    "write-unix",
    "read-unix_inf",
    "write-unix_inf",
    "read-hstore-5",
    "write-hstore-5",
    "read-hstore-1000",
    "write-hstore-1000",
    "read-jsonb-1kB",
    "write-jsonb-1kB",
    "read-jsonb-100kB",
    "write-jsonb-100kB",
    "read-item",
    "write-item",
    "read-int4[]-10",
    "write-int4[]-10",
    "read-int4[]-1000",
    "write-int4[]-1000",
    "read-int4[]-100000",
    "write-int4[]-100000",
    "read-text[]-1000",
    "write-text[]-1000",
    "read-int4[][]-1000x100",
    "write-int4[][]-1000x100",
    "read-int4-array-10",
    "write-int4-array-10",
    "row-8",
    "values-8",
    "params-8",
    "rewrite-int4",
    "rewrite-text",
    "type-clone",
    "type-clone-user",
    "type-eq",
    "type-from_oid",
];

/// Runs the case `turns` times.
pub fn run(alloc: Global, name: &str, turns: u32) -> Made {
    let work = Work {
        alloc,
        way: Way::Read,
        turns,
    };
    if let Some(conversion) = name.strip_prefix("read-") {
        return run_conversion(conversion, work);
    }
    if let Some(conversion) = name.strip_prefix("write-") {
        let way = Way::Write;
        return run_conversion(conversion, Work { way, ..work });
    }
    run_other(name, work)
}

/// Reads or writes values with the conversion of this name.
fn run_conversion(name: &str, work: Work) -> Made {
    let mut frames = BytesMut::new(work.alloc);
    if let Some(made) = numbers::run(name, work, &mut frames) {
        return Some(made);
    }
    if let Some(made) = texts::run(name, work, &mut frames) {
        return Some(made);
    }
    if let Some(made) = small_values::run(name, work, &mut frames) {
        return Some(made);
    }
    if let Some(made) = dates::run(name, work, &mut frames) {
        return Some(made);
    }
    run_compound(name, work, &mut frames)
}

/// Does the same with conversions of values that contain others.
fn run_compound(name: &str, work: Work, frames: &mut BytesMut) -> Made {
    if let Some(made) = maps::run(name, work, frames) {
        return Some(made);
    }
    if let Some(made) = documents::run(name, work, frames) {
        return Some(made);
    }
    if let Some(made) = lists::run(name, work, frames) {
        return Some(made);
    }
    records::run(name, work, frames)
}

/// Runs a case that is not about a conversion.
fn run_other(name: &str, work: Work) -> Made {
    if let Some(made) = columns::run(name, work) {
        return Some(made);
    }
    types::run(name, work)
}
