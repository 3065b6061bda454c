//! Tests of command lines.

use pg_copy::arguments::{Request, parse};
use std::alloc::Global;
use std::fmt::Write;
use std::test::Fail;
use test_support::{displays, same};

/// The words of a command line, with `|` between them.
fn words(alloc: Global, line: &str) -> Result<Vec<String>, Fail> {
    let mut words = Vec::new(alloc);
    for word in line.split('|') {
        words.push(String::from_str(alloc, word)?)?;
    }
    Ok(words)
}

/// Tests that the line asks for columns of these types, with spaces between them; an empty text
/// stands for help.
fn asks(alloc: Global, line: &str, expected: &str) -> Result<(), Fail> {
    let mut found = String::new(alloc);
    if let Request::Copy(columns) = parse(alloc, words(alloc, line)?.as_slice())? {
        for (place, column) in columns.iter().enumerate() {
            let space = if place > 0 { " " } else { "" };
            let form = if column.is_array { "[]" } else { "" };
            let name = column.base.name();
            write!(found, "{space}{name}{form}")?;
        }
    }
    same(found.as_str(), expected)
}

/// Tests that the line is refused with a fault of this text.
fn refuses(alloc: Global, line: &str, text: &str) -> Result<(), Fail> {
    let Err(fault) = parse(alloc, words(alloc, line)?.as_slice()) else {
        return Err(Fail::from("taken"));
    };
    displays(alloc, &fault, text)
}

/// Lines, and the types of the columns that they ask for.
const COLUMNS: [(&str, &str); 17] = [
    ("--help", ""),
    ("--help|int4", ""),
    ("int4", "int4"),
    ("int4|text[]", "int4 text[]"),
    ("int4, text[] ,uuid", "int4 text[] uuid"),
    ("int4,|text,", "int4 text"),
    // format_type of PostgreSQL 15.18
    (
        "boolean|smallint|integer|bigint|character varying(20)|character(3)|\"char\"|name",
        "bool int2 int4 int8 varchar bpchar \"char\" name",
    ),
    (
        "bit(8)|bit varying(9)|bit varying|character varying|text|bytea|unknown|oid",
        "bit varbit varbit varchar text bytea unknown oid",
    ),
    (
        "timestamp(3) without time zone|timestamp with time zone|time(0) without time zone|date",
        "timestamp timestamptz time date",
    ),
    (
        "interval|interval(3)|interval day to second(3)|interval year to month|interval year[]",
        "interval interval interval interval interval[]",
    ),
    (
        "timestamp(3) with time zone[]|integer[][]|bit(3)[]",
        "timestamptz[] int4[] bit[]",
    ),
    (
        "char|char(3)|int|varchar(3)|timestamptz|TEXT|Int4|smallserial|serial|bigserial|dec(3)|raw",
        "bpchar bpchar int4 varchar timestamptz text int4 int2 int4 int8 numeric bytea",
    ),
    (
        "real|double precision|float4[]|Double Precision[]",
        "float4 float8 float4[] float8[]",
    ),
    (
        "int4, numeric(10,2) ,text|decimal|numeric(3,-2)[]|Decimal(5)[], pg_catalog.numeric",
        "int4 numeric text numeric numeric[] numeric[] numeric",
    ),
    (
        "citext|public.citext|\"My.Schema\".hstore[]|ltree[]",
        "citext citext hstore[] ltree[]",
    ),
    ("enum|enum[]|\"bit\"|\"bit\"[]", "enum enum[] bit bit[]"),
    (
        "(a integer, \"b, \"\"(c)\" character varying(20)[])|(a enum[] )[]|(a int4)",
        "record record[] record",
    ),
];

#[test]
fn types_are_columns(rt: HostRuntime) -> Result<(), Fail> {
    for (line, types) in COLUMNS {
        asks(rt.alloc(), line, types)?;
    }
    Ok(())
}

/// Lines that are refused, and why.
const REFUSED: [(&str, &str); 2] = [
    ("", "no type is given; --help says how"),
    ("--version", "no option --version; --help says which"),
];

/// What is told before the types that are not taken.
const TOLD: &str = "\
no conversion of these types; an enumerated type is named enum, a domain by its base type, a composite type by its
fields, and any column may be raw, the bytes of its cells; scripts/columns prints the types of a table:";

/// Lines with types that are not taken, and what is told of these.
const TYPES: [(&str, &str); 4] = [
    (
        "int4, money(10,2) ,text|int4[]|time with time zone|int2vector[]",
        "column 2: money(10,2)\ncolumn 5: time with time zone\ncolumn 6: int2vector[]",
    ),
    (
        "(a (b int4))|(a point)",
        "column 1: (a (b int4)) (a composite type within another)\ncolumn 2: (a point)",
    ),
    (
        "double|float|int4 array|double  precision|varchar(a)|varchar(1",
        "column 1: double (write double precision)\ncolumn 2: float (write double precision)\n\
         column 3: int4 array (write [] after the type of the elements)\n\
         column 4: double  precision (write one space between words)\n\
         column 5: varchar(a)\ncolumn 6: varchar(1",
    ),
    ("int4, , x", "column 2: no type before a comma\ncolumn 3: x"),
];

#[test]
fn other_command_lines_are_refused(rt: HostRuntime) -> Result<(), Fail> {
    let alloc = rt.alloc();
    for (line, text) in REFUSED {
        refuses(alloc, line, text)?;
    }
    for (line, types) in TYPES {
        let text = format!(in alloc; "{TOLD}\n{types}")?;
        refuses(alloc, line, text.as_str())?;
    }
    Ok(())
}
