//! Lists and arrays.

use crate::values::{Seed, values};
use crate::work::{Made, Work, measure_values, stated, user_type};
use postgres_types::private::BytesMut;
use postgres_types::{Fault, Kind, Type};
use std::alloc::Global;
use std::slice;

/// Runs the case with this name, if it is in this file: a list has as many elements as its name
/// states.
pub fn run(name: &str, work: Work, frames: &mut BytesMut) -> Made {
    if let Some(count) = stated(name, "int4[]-") {
        return Some(numbers(work, frames, count));
    }
    if let Some(count) = stated(name, "text[]-") {
        return Some(texts(work, frames, count));
    }
    Some(match name {
        "int4[][]-1000x100" => nested(work, frames),
        "int4-array-10" => arrays(work, frames),
        _ => return None,
    })
}

fn numbers(work: Work, frames: &mut BytesMut, count: u32) -> Result<u64, Fault> {
    let list: Vec<i32> = values(work.alloc, count)?;
    let lists = slice::from_ref(&list);
    measure_values::<_, Vec<i32>>(work, frames, &Type::INT4_ARRAY, lists)
}

/// A list of texts, of which every eighth is NULL.
fn texts(work: Work, frames: &mut BytesMut, count: u32) -> Result<u64, Fault> {
    type Texts = Vec<Option<String>>;
    let list: Texts = values(work.alloc, count)?;
    let lists = slice::from_ref(&list);
    measure_values::<_, Texts>(work, frames, &Type::TEXT_ARRAY, lists)
}

/// A list of 1,000 lists of 100 numbers.
fn lists(alloc: Global) -> Result<Vec<Vec<i32>>, Fault> {
    let mut lists = Vec::new(alloc);
    for _ in 0..1_000 {
        lists.push(values(alloc, 100)?)?;
    }
    Ok(lists)
}

fn nested(work: Work, frames: &mut BytesMut) -> Result<u64, Fault> {
    let ty = user_type(work.alloc, "lists", 100_000, Kind::Array(Type::INT4_ARRAY))?;
    let lists = lists(work.alloc)?;
    measure_values::<_, Vec<Vec<i32>>>(work, frames, &ty, slice::from_ref(&lists))
}

/// Ten numbers.
fn ten_numbers() -> [i32; 10] {
    let mut numbers = [0; 10];
    let mut seed = Seed::first();
    for number in &mut numbers {
        *number = seed.number;
        seed = seed.next();
    }
    numbers
}

fn arrays(work: Work, frames: &mut BytesMut) -> Result<u64, Fault> {
    let numbers = ten_numbers();
    let arrays = slice::from_ref(&numbers);
    measure_values::<_, [i32; 10]>(work, frames, &Type::INT4_ARRAY, arrays)
}
