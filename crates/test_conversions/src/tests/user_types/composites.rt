//! The composite types of docs/OWN-TYPES.md. The cells are laid out as `record_send` lays them out:
//! the number of fields, and of each field the OID of its type, the length of its cell and the
//! cell.

use own_types::composite::Purchase;
use own_types::nested_composite::{Address, Parcel};
use pg_record::types;
use postgres_types::composite::Composite;
use postgres_types::{Fault, Field, FromSql, Kind, ToSql, Type};
use std::alloc::Global;
use std::test::Fail;
use test_support::{read, rewrites, spells, user_type, writes};

/// The address Elm 1, Bonn: two fields.
const ADDRESS: &[u8] = b"\0\0\0\x02\0\0\0\x19\0\0\0\x05Elm 1\0\0\0\x19\0\0\0\x04Bonn";

/// The item "nut" of the supplier 7, without a price.
pub const NUT: &[u8] =
    b"\0\0\0\x03\0\0\0\x19\0\0\0\x03nut\0\0\0\x17\0\0\0\x04\0\0\0\x07\0\0\0\x14\xff\xff\xff\xff";

/// A purchase, a field a line after their number: 7, Ana, true, 2000-01-01 00:00:01, NULL,
/// {new,gift}, the item, and an array of it. The OID of `InventoryItem` is 100003, and that of its
/// arrays 100004.
const PURCHASE: [&[u8]; 13] = [
    b"\0\0\0\x08",
    b"\0\0\0\x14\0\0\0\x08\0\0\0\0\0\0\0\x07",
    b"\0\0\0\x19\0\0\0\x03Ana",
    b"\0\0\0\x10\0\0\0\x01\x01",
    b"\0\0\x04\xa0\0\0\0\x08\0\0\0\0\0\x0f\x42\x40",
    b"\0\0\0\x17\xff\xff\xff\xff",
    b"\0\0\x03\xf1\0\0\0\x23",
    b"\0\0\0\x01\0\0\0\0\0\0\0\x19\0\0\0\x02\0\0\0\x01\0\0\0\x03new\0\0\0\x04gift",
    b"\0\x01\x86\xa3\0\0\0\x23",
    NUT,
    b"\0\x01\x86\xa4\0\0\0\x3b",
    b"\0\0\0\x01\0\0\0\0\0\x01\x86\xa3\0\0\0\x01\0\0\0\x01\0\0\0\x23",
    NUT,
];

/// A parcel: A, the address, and an array of it and of Oak 2, Ulm. The OID of `address` is 0x4002,
/// and that of its arrays 0x4001.
const PARCEL: [&[u8]; 10] = [
    b"\0\0\0\x03",
    b"\0\0\0\x19\0\0\0\x01A",
    b"\0\0\x40\x02\0\0\0\x1d",
    ADDRESS,
    b"\0\0\x40\x01\0\0\0\x55",
    b"\0\0\0\x01\0\0\0\0\0\0\x40\x02\0\0\0\x02\0\0\0\x01",
    b"\0\0\0\x1d",
    ADDRESS,
    b"\0\0\0\x1c",
    b"\0\0\0\x02\0\0\0\x19\0\0\0\x05Oak 2\0\0\0\x19\0\0\0\x03Ulm",
];

/// Returns the parts, one after another.
fn joined(alloc: Global, parts: &[&[u8]]) -> Result<Vec<u8>, Fault> {
    let mut cell = Vec::new(alloc);
    for part in parts {
        cell.extend_from_slice(part)?;
    }
    Ok(cell)
}

/// A composite type of that name and OID, of fields of these names and types.
pub fn composite(
    alloc: Global,
    name: &str,
    oid: u32,
    fields: &[(&str, Type)],
) -> Result<Type, Fault> {
    let mut list = Vec::new(alloc);
    for (name, ty) in fields {
        let name = String::from_str(alloc, name)?;
        list.push(Field::new(name, ty.try_clone()?))?;
    }
    user_type(alloc, name, oid, Kind::Composite(list), "public")
}

/// The type `address`, whose OID is 0x4002.
fn address_type(alloc: Global) -> Result<Type, Fault> {
    let fields = [("street", Type::TEXT), ("city", Type::TEXT)];
    composite(alloc, "address", 0x4002, &fields)
}

fn parcel_type(alloc: Global) -> Result<Type, Fault> {
    let addresses = Kind::Array(address_type(alloc)?);
    let fields = [
        ("label", Type::TEXT),
        ("bill_to", address_type(alloc)?),
        (
            "ship_to",
            user_type(alloc, "_address", 0x4001, addresses, "public")?,
        ),
    ];
    composite(alloc, "parcel", 0x4006, &fields)
}

fn item_array(alloc: Global) -> Result<Type, Fault> {
    let item = types::item_type(alloc, 100_003)?;
    Ok(types::item_array_type(alloc, 100_004, item)?)
}

fn purchase_type(alloc: Global) -> Result<Type, Fault> {
    let fields = [
        ("id", Type::INT8),
        ("customer", Type::TEXT),
        ("paid", Type::BOOL),
        ("placed", Type::TIMESTAMPTZ),
        ("discount", Type::INT4),
        ("tags", Type::TEXT_ARRAY),
        ("gift", types::item_type(alloc, 100_003)?),
        ("items", item_array(alloc)?),
    ];
    composite(alloc, "purchase", 0x4005, &fields)
}

/// Tests that the cell is read, and that what is read is written as the cell.
pub fn is_kept<'a, T: FromSql<'a> + ToSql>(
    alloc: Global,
    ty: &Type,
    cell: &'a [u8],
) -> Result<(), Fail> {
    let value: T = read(alloc, ty, Some(cell))?;
    writes(alloc, &value, ty, cell)
}

#[test]
fn a_purchase_is_read_and_written(rt: HostRuntime) -> Result<(), Fail> {
    let cell = joined(rt.alloc(), &PURCHASE)?;
    is_kept::<Composite<Purchase>>(rt.alloc(), &purchase_type(rt.alloc())?, cell.as_slice())
}

#[test]
fn a_parcel_is_read_and_written(rt: HostRuntime) -> Result<(), Fail> {
    let cell = joined(rt.alloc(), &PARCEL)?;
    is_kept::<Composite<Parcel>>(rt.alloc(), &parcel_type(rt.alloc())?, cell.as_slice())
}

#[test]
fn an_address_is_written_and_read(rt: HostRuntime) -> Result<(), Fail> {
    let alloc = rt.alloc();
    let ty = address_type(alloc)?;
    rewrites::<Composite<Address>>(alloc, &ty, ADDRESS, ADDRESS)?;
    let value = Address {
        street: String::from_str(alloc, "Elm 1")?,
        city: String::from_str(alloc, "Bonn")?,
    };
    spells(alloc, &ty, &[(Composite(value), ADDRESS)])
}
