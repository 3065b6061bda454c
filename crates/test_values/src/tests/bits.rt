//! Bit strings: a table of rows, cells that are refused, and the list of bits.

use postgres_types::private::BytesMut;
use postgres_types::protocol::varbit_from_sql;
use postgres_types::{BitVec, Fault, ToSql, Type};
use std::alloc::Global;
use std::test::Fail;
use test_support::code::{COUNT, SIZE};
use test_support::{
    debugs, displays, holds, null_takes_no_memory, read, reads, refuses, refuses_fronts, rewrites,
    same, writes, writes_by_room,
};

/// A cell of 3 bits whose padding is not 0.
const PADDED: [u8; 5] = [0, 0, 0, 3, 0xbf];

/// The same with a padding of 0.
const ZEROS: [u8; 5] = [0, 0, 0, 3, 0xa0];

/// Nine bits.
const NINE: [u8; 6] = [0, 0, 0, 9, 0x80, 0];

/// Bit strings, a cell that is read as them, and the cell that is written for them.
const BITS: [(&[bool], &[u8], &[u8]); 4] = [
    (&[], &[0; 4], &[0; 4]),
    (&[true, false, true], &PADDED, &ZEROS),
    (&[true, false, true], &ZEROS, &ZEROS),
    (
        &[true, false, false, false, false, false, false, false, false],
        &NINE,
        &NINE,
    ),
];

const DAMAGED: [(Option<&[u8]>, u32); 3] = [
    (Some(&[0xff, 0xff, 0xff, 0xff]), COUNT),
    (Some(&[0, 0, 0, 0, 0]), SIZE),
    (Some(&[0x7f, 0xff, 0xff, 0xff]), SIZE),
];

/// Returns the bit string of these bits.
fn list(alloc: Global, bits: &[bool]) -> Result<BitVec, Fault> {
    let mut list = BitVec::new(alloc);
    for bit in bits {
        list.push(*bit)?;
    }
    Ok(list)
}

#[test]
fn bits_have_their_cells(rt: HostRuntime) -> Result<(), Fail> {
    let alloc = rt.alloc();
    for (bits, cell, written) in BITS {
        let bits = list(alloc, bits)?;
        writes(alloc, &bits, &Type::VARBIT, written)?;
        reads(alloc, &Type::VARBIT, cell, bits)?;
        rewrites::<BitVec>(alloc, &Type::VARBIT, cell, written)?;
    }
    Ok(())
}

#[test]
fn damaged_bits_are_refused(rt: HostRuntime) -> Result<(), Fail> {
    let alloc = rt.alloc();
    refuses::<BitVec>(alloc, &Type::VARBIT, &DAMAGED)?;
    refuses_fronts::<BitVec>(alloc, &Type::VARBIT, &PADDED, &[])
}

#[test]
fn bits_are_found_and_popped(rt: HostRuntime) -> Result<(), Fail> {
    let alloc = rt.alloc();
    let mut bits = BitVec::from_bytes(alloc, &[0xa5])?;
    same(
        (bits.len(), bits.is_empty(), bits.get(2)),
        (8, false, Some(true)),
    )?;
    same(bits.pop(), Some(true))?;
    same(bits.as_bytes(), [0xa4u8].as_slice())?;
    same(bits.to_bytes(alloc)?.as_slice(), [0xa4u8].as_slice())
}

/// A bit string of 1 MB. If there is enough memory it is copied, written and read, which no
/// contract states.
#[test]
fn long_bits_are_copied_written_and_read(rt: HostRuntime) -> Result<(), Fail> {
    let alloc = rt.alloc();
    let bytes = vec![in alloc; b'x'; 1_048_576]?;
    let bits = BitVec::from_bytes(alloc, bytes.as_slice())?;
    let mut cell = BytesMut::new(alloc);
    let _answer = bits.to_sql_checked(alloc, &Type::VARBIT, &mut cell)?;
    let back: BitVec = read(alloc, &Type::VARBIT, Some(cell.as_slice()))?;
    holds(back == bits.clone()?, "other bits")
}

#[test]
fn bits_are_written_without_memory(rt: HostRuntime) -> Result<(), Fail> {
    let alloc = rt.alloc();
    let bits = BitVec::from_bytes(alloc, &[0xa5])?;
    writes_by_room(alloc, &Type::VARBIT, &bits, &[0, 0, 0, 8, 0xa5])?;
    null_takes_no_memory::<BitVec>(alloc, &Type::VARBIT)
}

#[test]
fn bits_have_texts(rt: HostRuntime) -> Result<(), Fail> {
    let alloc = rt.alloc();
    let bits = BitVec::from_bytes(alloc, &[144])?;
    debugs(alloc, &bits, "BitVec { bytes: [144], len: 8 }")?;
    displays(alloc, &bits, "10010000")?;
    let bits = varbit_from_sql(&PADDED)?;
    same((bits.len(), bits.bytes()), (3, [0xbfu8].as_slice()))?;
    debugs(alloc, &bits, "Varbit { len: 3, bytes: [191] }")
}
