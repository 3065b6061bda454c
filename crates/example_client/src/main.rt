//! Reads rows of nine columns, binds four parameters, and prints the faults of what is refused; then
//! a row whose columns are known only at run time, and a binary COPY.
#![tactic(auto)]

mod columns;
mod copy;

use anyhow::Result;
use jiff::Timestamp;
use pg_client::{Bind, Column, PlacedFault, Row};
use postgres_types::{BytesMut, Interval, IpInet, Type};
use serde_json::Value;
use std::alloc::Global;
use uuid::Uuid;

/// A row of `SELECT id, note, at, parts, key, doc, span, host, done FROM event`.
#[derive(Debug, Drop)]
struct Event {
    id: i64,
    note: Option<String>,
    at: Timestamp,
    parts: Vec<i32>,
    key: Uuid,
    doc: Value,
    span: Interval,
    host: IpInet,
    done: bool,
}

/// The columns of the row.
fn event_columns() -> [Column; 9] {
    [
        Column::new("id", Type::INT8),
        Column::new("note", Type::TEXT),
        Column::new("at", Type::TIMESTAMPTZ),
        Column::new("parts", Type::INT4_ARRAY),
        Column::new("key", Type::UUID),
        Column::new("doc", Type::JSONB),
        Column::new("span", Type::INTERVAL),
        Column::new("host", Type::INET),
        Column::new("done", Type::BOOL),
    ]
}

/// Reads the body of a DataRow message.
fn read_event(alloc: Global, body: &[u8], columns: &[Column]) -> Result<Event, PlacedFault> {
    let mut row = Row::new(body, columns)?;
    let event = Event {
        id: row.next(alloc)?,
        note: row.next(alloc)?,
        at: row.next(alloc)?,
        parts: row.next(alloc)?,
        key: row.next(alloc)?,
        doc: row.next(alloc)?,
        span: row.next(alloc)?,
        host: row.next(alloc)?,
        done: row.next(alloc)?,
    };
    row.finish()?;
    Ok(event)
}

/// Binds the parameters of `INSERT INTO event (note, parts, id, key) VALUES ($1, $2, $3, $4)`.
fn bind_event(event: &Event, out: &mut BytesMut) -> Result<(), PlacedFault> {
    let mut bind = Bind::new(out)?;
    bind.push(&event.note.as_deref(), &Type::TEXT)?;
    bind.push(&event.parts.as_slice(), &Type::INT4_ARRAY)?;
    bind.push(&event.id, &Type::INT8)?;
    bind.push(&None::<Uuid>, &Type::UUID)?;
    bind.finish()
}

/// -7, `late`, 2024-02-29 12:00:00 UTC, the array of 1 and -2, a UUID, `{"a":1}`, 1 month 2 days
/// and 3 seconds, 10.0.0.1, and true.
const LATE: [u8; 143] = [
    0, 9, 0, 0, 0, 8, 255, 255, 255, 255, 255, 255, 255, 249, 0, 0, 0, 4, b'l', b'a', b't', b'e', //
    0, 0, 0, 8, 0, 2, 181, 130, 196, 120, 16, 0, //
    0, 0, 0, 36, 0, 0, 0, 1, 0, 0, 0, 0, 0, 0, 0, 23, 0, 0, 0, 2, 0, 0, 0, 1, //
    0, 0, 0, 4, 0, 0, 0, 1, 0, 0, 0, 4, 255, 255, 255, 254, //
    0, 0, 0, 16, 0, 17, 34, 51, 68, 85, 102, 119, 136, 153, 170, 187, 204, 221, 238, 255, //
    0, 0, 0, 8, 1, b'{', b'"', b'a', b'"', b':', b'1', b'}', //
    0, 0, 0, 16, 0, 0, 0, 0, 0, 45, 198, 192, 0, 0, 0, 2, 0, 0, 0, 1, //
    0, 0, 0, 8, 2, 32, 0, 4, 10, 0, 0, 1, 0, 0, 0, 1, 1,
];

/// Returns the text of the row in the body of a DataRow message, or of its fault.
fn describe(alloc: Global, body: &[u8]) -> Result<String> {
    match read_event(alloc, body, &event_columns()) {
        Ok(event) => Ok(format!(in alloc; "{event:?}")?),
        Err(fault) => Ok(format!(in alloc; "{fault}")?),
    }
}

fn main(rt: HostRuntime) -> Result<()> {
    let alloc = rt.alloc();
    println!(rt; "{}", describe(alloc, &LATE)?)?;
    println!(rt; "{}", describe(alloc, &[0, 3])?)?;
    println!(rt; "{}", describe(alloc, &LATE[..30])?)?;
    let mut trailing = LATE.to_vec(alloc)?;
    trailing.push(0)?;
    println!(rt; "{}", describe(alloc, trailing.as_slice())?)?;
    let mut out = BytesMut::new(alloc);
    bind_event(&read_event(alloc, &LATE, &event_columns())?, &mut out)?;
    println!(rt; "{:?}", out.as_slice())?;
    columns::print_row(rt)?;
    copy::print_ids(rt)
}
