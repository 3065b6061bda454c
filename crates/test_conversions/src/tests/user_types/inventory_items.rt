//! A composite type, read and written by hand.

use super::composites::{NUT, composite};
use pg_record::InventoryItem;
use pg_record::types::item_type;
use postgres_types::{Fault, Type};
use std::alloc::Global;
use std::test::Fail;
use test_support::code::{FIELD_COUNT, FIELD_OID, SIZE, UTF8, WAS_NULL};
use test_support::{accepts, refuses, refuses_type, rewrites, spells};

/// The cell of "", -1 and the price 258.
const NAMELESS: &[u8] = b"\0\0\0\x03\0\0\0\x19\0\0\0\0\0\0\0\x17\0\0\0\x04\xff\xff\xff\xff\
    \0\0\0\x14\0\0\0\x08\0\0\0\0\0\0\x01\x02";

/// An item.
fn item(
    alloc: Global,
    name: &str,
    supplier_id: i32,
    price: Option<i64>,
) -> Result<InventoryItem, Fault> {
    let name = String::from_str(alloc, name)?;
    Ok(InventoryItem {
        name,
        supplier_id,
        price,
    })
}

/// Items and their cells.
const ITEMS: [(&str, i32, Option<i64>, &[u8]); 2] = [
    ("nut", 7, None, NUT),
    ("", -1, Some(258), NAMELESS),
];

#[test]
fn an_item_is_a_record(rt: HostRuntime) -> Result<(), Fail> {
    let ty = item_type(rt.alloc(), 100_003)?;
    for (name, supplier_id, price, cell) in ITEMS {
        let value = item(rt.alloc(), name, supplier_id, price)?;
        spells(rt.alloc(), &ty, &[(value, cell)])?;
    }
    Ok(())
}

/// The cell of the item "nut", but for the number of the fields.
const TWO_FIELDS: &[u8] =
    b"\0\0\0\x02\0\0\0\x19\0\0\0\x03nut\0\0\0\x17\0\0\0\x04\0\0\0\x07\0\0\0\x14\xff\xff\xff\xff";

/// The same, but for the OID of the first field.
const OTHER_OID: &[u8] =
    b"\0\0\0\x03\0\0\0\x17\0\0\0\x03nut\0\0\0\x17\0\0\0\x04\0\0\0\x07\0\0\0\x14\xff\xff\xff\xff";

/// The same, and a byte.
const TRAILING: &[u8] = b"\0\0\0\x03\0\0\0\x19\0\0\0\x03nut\0\0\0\x17\0\0\0\x04\0\0\0\x07\
    \0\0\0\x14\xff\xff\xff\xff\0";

/// Refused cells, and the numbers of their faults.
const REFUSED: [(Option<&[u8]>, u32); 11] = [
    (None, WAS_NULL),
    (Some(b"\0\0\x03"), SIZE),
    (Some(TWO_FIELDS), FIELD_COUNT),
    (Some(b"\xff\xff\xff\xff"), FIELD_COUNT),
    (Some(b"\0\0\0\x03\0\0\x19"), SIZE),
    (Some(OTHER_OID), FIELD_OID),
    (
        Some(b"\0\0\0\x03\0\0\0\x19\0\0\0\x03nut\0\0\0\x14"),
        FIELD_OID,
    ),
    (Some(b"\0\0\0\x03\0\0\0\x19\0\0\0\x04nut"), SIZE),
    (Some(b"\0\0\0\x03\0\0\0\x19\0\0\0\x01\xff"), UTF8),
    (
        Some(b"\0\0\0\x03\0\0\0\x19\0\0\0\x03nut\0\0\0\x17\xff\xff\xff\xff"),
        WAS_NULL,
    ),
    (Some(TRAILING), SIZE),
];

#[test]
fn damaged_records_are_refused(rt: HostRuntime) -> Result<(), Fail> {
    let ty = item_type(rt.alloc(), 100_003)?;
    refuses::<InventoryItem>(rt.alloc(), &ty, &REFUSED)
}

/// Names and fields of composite types, and whether these are accepted.
const COMPOSITES: [(&str, [(&str, Type); 3], bool); 4] = [
    (
        "InventoryItem",
        [
            ("name", Type::VARCHAR),
            ("supplier_id", Type::INT4),
            ("price", Type::INT8),
        ],
        true,
    ),
    (
        "InventoryItem",
        [
            ("name", Type::TEXT),
            ("supplier_id", Type::INT8),
            ("price", Type::INT8),
        ],
        false,
    ),
    (
        "InventoryItem",
        [
            ("supplier_id", Type::TEXT),
            ("name", Type::INT4),
            ("price", Type::INT8),
        ],
        false,
    ),
    (
        "item",
        [
            ("name", Type::TEXT),
            ("supplier_id", Type::INT4),
            ("price", Type::INT8),
        ],
        false,
    ),
];

/// Tests that exactly those composite types are accepted that the table states.
fn accepts_items(alloc: Global, rows: &[(&str, [(&str, Type); 3], bool)]) -> Result<(), Fail> {
    for (name, fields, accepted) in rows {
        let ty = composite(alloc, name, 100_003, fields)?;
        accepts::<InventoryItem>(&[(ty, *accepted)])?;
    }
    Ok(())
}

#[test]
fn types_are_accepted_by_their_names(rt: HostRuntime) -> Result<(), Fail> {
    accepts_items(rt.alloc(), &COMPOSITES)?;
    let nut = item(rt.alloc(), "nut", 7, None)?;
    refuses_type(rt.alloc(), &nut, &Type::TEXT, "InventoryItem")
}

#[test]
fn items_stand_in_boxes(rt: HostRuntime) -> Result<(), Fail> {
    let ty = item_type(rt.alloc(), 100_003)?;
    rewrites::<Box<InventoryItem>>(rt.alloc(), &ty, NUT, NUT)
}
