//! Arrays of a fixed number of elements, which are read in place.

use super::cells::{NO_DIMENSION, NULL, ONE_AND_TWO};
use postgres_types::Type;
use std::alloc::Global;
use std::boxed::BoxedSlice;
use std::test::Fail;
use test_support::{code, hoard, null_takes_no_memory, reads, refusal, same};

const INTS: Type = Type::INT4_ARRAY;

/// The `TEXT_ARRAY` of "ab" and "".
const TEXTS: [u8; 30] = [
    0, 0, 0, 1, 0, 0, 0, 0, 0, 0, 0, 0x19, 0, 0, 0, 2, 0, 0, 0, 1, 0, 0, 0, 2, b'a', b'b', 0, 0, 0,
    0,
];

#[test]
fn elements_may_own_memory(rt: HostRuntime) -> Result<(), Fail> {
    let alloc = rt.alloc();
    let texts = [String::from_str(alloc, "ab")?, String::new(alloc)];
    reads(alloc, &Type::TEXT_ARRAY, &TEXTS, texts)
}

/// Tests that arrays of elements that do not allocate are read, and that an array is refused as a
/// list with the fault of this number, or read if it is 0.
fn reads_in_place(alloc: Global, list: u32) -> Result<(), Fail> {
    reads(alloc, &INTS, &ONE_AND_TWO, [1i32, 2])?;
    reads(alloc, &INTS, &NULL, [None::<i32>])?;
    let none: [i32; 0] = [];
    reads(alloc, &INTS, &NO_DIMENSION, none)?;
    reads(alloc, &Type::TEXT_ARRAY, &TEXTS, ["ab", ""])?;
    same(refusal::<Vec<i32>>(alloc, &INTS, Some(&ONE_AND_TWO)), list)
}

#[test]
fn arrays_are_read_where_every_growth_is_refused(rt: HostRuntime) -> Result<(), Fail> {
    let alloc = rt.alloc();
    reads_in_place(alloc, 0)?;
    let blocks = hoard(alloc)?;
    let hoarded = reads_in_place(alloc, code::MEMORY);
    drop(blocks);
    hoarded
}

#[test]
fn null_is_no_list_without_memory(rt: HostRuntime) -> Result<(), Fail> {
    null_takes_no_memory::<Vec<i32>>(rt.alloc(), &INTS)?;
    null_takes_no_memory::<BoxedSlice<i32>>(rt.alloc(), &INTS)?;
    null_takes_no_memory::<[i32; 2]>(rt.alloc(), &INTS)
}

/// The length of the long text: the memory that is freed below is enough for one such text, and not
/// for two.
const LONG: usize = 2_500_000;

/// The head of an array of two texts, and the length of the long one.
const HEAD: [u8; 24] = [
    0, 0, 0, 1, 0, 0, 0, 0, 0, 0, 0, 0x19, 0, 0, 0, 2, 0, 0, 0, 1, 0, 0x26, 0x25, 0xa0,
];

/// The array of a long text and of a byte that is no text.
fn long_text_then_none(alloc: Global) -> Result<Vec<u8>, Fail> {
    let mut cell = Vec::from_slice(alloc, &HEAD)?;
    let text = Vec::from_elem(alloc, b'a', LONG)?;
    cell.extend_from_slice(text.as_slice())?;
    cell.extend_from_slice(&[0, 0, 0, 1, 0xff])?;
    Ok(cell)
}

/// Reads the array of texts twice, with memory for one of them, and returns the numbers of the
/// faults.
fn refusals(alloc: Global, cell: &[u8]) -> [u32; 2] {
    let first = refusal::<[String; 2]>(alloc, &Type::TEXT_ARRAY, Some(cell));
    let second = refusal::<[String; 2]>(alloc, &Type::TEXT_ARRAY, Some(cell));
    [first, second]
}

#[test]
fn elements_before_a_fault_are_dropped(rt: HostRuntime) -> Result<(), Fail> {
    let alloc = rt.alloc();
    let cell = long_text_then_none(alloc)?;
    same(refusals(alloc, cell.as_slice()), [code::UTF8, code::UTF8])?;
    let room: Vec<u8> = Vec::with_capacity(alloc, 4_000_000)?;
    let blocks = hoard(alloc)?;
    let full = refusals(alloc, cell.as_slice());
    drop(room);
    let hoarded = refusals(alloc, cell.as_slice());
    drop(blocks);
    same(full, [code::MEMORY, code::MEMORY])?;
    same(hoarded, [code::UTF8, code::UTF8])
}
