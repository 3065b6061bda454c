//! A composite type whose fields are read without allocating, so that its records are too.
ghost use Rattle.std.specs.Prelude.{[], ◌∷◌};
ghost use Rattle.postgres_types.specs.CompositeFields.{and, end};
ghost use Rattle.postgres_types.specs.Conversion.{ap, codes, refl};

use super::composites::composite;
use postgres_types::composite::laws::{fields_read_without_memory, record_read_without_memory};
use postgres_types::composite::{And, Composite, End, FieldRefs, Record};
use postgres_types::private::BytesMut;
use postgres_types::{Fault, Field, PgLsn, Type, from_row, row};
use std::alloc::Global;
use std::test::Fail;
use test_support::takes_no_memory;

/// `CREATE TYPE position AS (line int4, log pg_lsn)`.
#[derive(Debug, PartialEq, Drop)]
struct Position {
    line: i32,
    log: Option<PgLsn>,
}

impl Record for Position {
    type Fields = And<i32, And<Option<PgLsn>, End>>;

    ghost type_name = { codes "position" };

    ghost names = { codes "line" ∷ codes "log" ∷ [] };

    ghost inside = { λ v. and v.line (and v.log end) };

    ghost names_width = { refl };

    ghost injective = { λ v w. ap (λ r. record { line = r.0; log = r.1.0 }) };

    fn name() -> &'static str {
        "position"
    }

    fn field_names() -> &'static [&'static str] {
        &["line", "log"]
    }

    fn from_row(row: Self::Fields) -> Position {
        from_row!(row => Position { line, log })
    }

    fn row_to_sql(&self, alloc: Global, fields: &[Field], out: &mut BytesMut) -> Result<(), Fault> {
        row!(self => line, log).to_fields(alloc, fields, out)
    }
}

/// Reading a cell of a position never fails with `Memory`.
fn positions_are_read_without_memory() {
    fields_read_without_memory::<Option<PgLsn>, End>();
    fields_read_without_memory::<i32, And<Option<PgLsn>, End>>();
    record_read_without_memory::<Position>();
}

fn position_type(alloc: Global) -> Result<Type, Fault> {
    let fields = [("line", Type::INT4), ("log", Type::PG_LSN)];
    composite(alloc, "position", 0x4020, &fields)
}

/// The position 7, 16/B374D848.
const LOGGED: &[u8] =
    b"\0\0\0\x02\0\0\0\x17\0\0\0\x04\0\0\0\x07\0\0\x0c\x94\0\0\0\x08\0\0\0\x16\xb3\x74\xd8\x48";

/// The position -1, NULL.
const NOT_LOGGED: &[u8] =
    b"\0\0\0\x02\0\0\0\x17\0\0\0\x04\xff\xff\xff\xff\0\0\x0c\x94\xff\xff\xff\xff";

#[test]
fn positions_take_no_memory(rt: HostRuntime) -> Result<(), Fail> {
    positions_are_read_without_memory();
    let logged = Position {
        line: 7,
        log: Some(PgLsn::from(0x16_b374_d848)),
    };
    let not_logged = Position {
        line: -1,
        log: None,
    };
    let rows = [
        (Composite(logged), LOGGED),
        (Composite(not_logged), NOT_LOGGED),
    ];
    takes_no_memory(rt.alloc(), &position_type(rt.alloc())?, &rows)
}
