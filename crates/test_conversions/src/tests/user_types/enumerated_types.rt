//! Enumerated types: `Mood`, and `level` by `EnumType`.

use own_types::enumerated::Level;
use pg_record::Mood;
use pg_record::types::mood_type;
use postgres_types::enums::Enum;
use postgres_types::{Fault, Kind, Type};
use std::alloc::Global;
use std::test::Fail;
use test_support::code::{USER, UTF8, WAS_NULL};
use test_support::{accepts, displays, read, refuses, refuses_type, spells, user_type};

/// An enumerated type of that name, with the labels.
fn enumerated(alloc: Global, name: &str, labels: &[&str]) -> Result<Type, Fault> {
    let mut texts = Vec::new(alloc);
    for label in labels {
        texts.push(String::from_str(alloc, label)?)?;
    }
    user_type(alloc, name, 0x4001, Kind::Enum(texts), "public")
}

/// The type `level`, whose OID is 0x4001.
pub fn level(alloc: Global) -> Result<Type, Fault> {
    enumerated(alloc, "level", &["junior", "senior", "staff"])
}

/// Names and labels of enumerated types, and whether moods accept these.
const TYPES: [(&str, &[&str], bool); 5] = [
    ("Mood", &["Happy", "Sad", "Ok"], true),
    ("Mood", &["Sad", "Ok"], false),
    ("Mood", &["Sad", "Sad", "Happy"], false),
    ("Mood", &["Sad", "Ok", "Happy", "Angry"], false),
    ("mood", &["Sad", "Ok", "Happy"], false),
];

#[test]
fn its_name_and_labels_in_any_order_are_accepted(rt: HostRuntime) -> Result<(), Fail> {
    for (name, labels, accepted) in TYPES {
        let ty = enumerated(rt.alloc(), name, labels)?;
        accepts::<Mood>(&[(ty, accepted)])?;
    }
    refuses_type(rt.alloc(), &Mood::Ok, &Type::TEXT, "Mood")
}

#[test]
fn a_cell_is_the_label(rt: HostRuntime) -> Result<(), Fail> {
    let rows: [(Mood, &[u8]); 3] = [
        (Mood::Sad, &[0x53, 0x61, 0x64]),
        (Mood::Ok, &[0x4f, 0x6b]),
        (Mood::Happy, &[0x48, 0x61, 0x70, 0x70, 0x79]),
    ];
    spells(rt.alloc(), &mood_type(rt.alloc(), 100_005)?, &rows)
}

/// Cells that spell no label, and the numbers of their faults.
const NO_LABELS: [(Option<&[u8]>, u32); 4] = [
    (None, WAS_NULL),
    (Some(b""), USER),
    (Some(b"sad"), USER),
    (Some(b"Sad\xc3"), UTF8),
];

#[test]
fn other_cells_are_refused(rt: HostRuntime) -> Result<(), Fail> {
    let alloc = rt.alloc();
    let ty = mood_type(alloc, 100_005)?;
    refuses::<Mood>(alloc, &ty, &NO_LABELS)?;
    let refused = read::<Mood>(alloc, &ty, Some(b"sad"));
    displays(alloc, &refused.err().ok_or("read")?, "invalid variant")
}

#[test]
fn levels_are_labels(rt: HostRuntime) -> Result<(), Fail> {
    let rows = [
        (Enum(Level::Junior), b"junior".as_slice()),
        (Enum(Level::Senior), b"senior".as_slice()),
        (Enum(Level::Staff), b"staff".as_slice()),
    ];
    spells(rt.alloc(), &level(rt.alloc())?, &rows)
}
