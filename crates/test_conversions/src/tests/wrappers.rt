//! A user-defined Rust type in nested wrappers, and the format of what is wrapped.

use own_types::newtype::Days;
use postgres_types::{Date, Format, ToSql, Type};
use std::test::Fail;
use test_support::{Word, same, spells};

/// An array of NULL and 2000-01-08.
const NULL_AND_WEEK: [u8; 32] = [
    0, 0, 0, 1, 0, 0, 0, 1, 0, 0, 4, 0x3a, 0, 0, 0, 2, 0, 0, 0, 1, 0xff, 0xff, 0xff, 0xff, 0, 0, 0,
    4, 0, 0, 0, 7,
];

#[test]
fn wrappers_nest_over_user_defined_values(rt: HostRuntime) -> Result<(), Fail> {
    let alloc = rt.alloc();
    let week = Box::new(alloc, Date::Value(Days(7)))?;
    let list: Vec<Option<Box<Date<Days>>>> = vec![in alloc; None, Some(week)]?;
    spells(
        alloc,
        &Type::DATE_ARRAY,
        &[(Some(list), NULL_AND_WEEK.as_slice())],
    )
}

/// The format of the value for TEXT.
fn format_of<T: ToSql>(value: &T) -> Format {
    value.encode_format(&Type::TEXT)
}

#[test]
fn boxes_and_lists_of_texts_are_binary(rt: HostRuntime) -> Result<(), Fail> {
    let alloc = rt.alloc();
    let word = Word("ja");
    let boxed = Box::new(alloc, Word("nein"))?;
    let list = vec![in alloc; Word("doch")]?;
    let inside = [
        format_of(&word),
        format_of(&&word),
        format_of(&Some(Word("ja"))),
    ];
    same(inside, [Format::Text, Format::Text, Format::Text])?;
    let own = [format_of(&boxed), format_of(&list)];
    same(own, [Format::Binary, Format::Binary])
}
