//! The values of the cases, which follow one another without a pattern.

use postgres_types::Fault;
use std::alloc::Global;

/// The number of values of the case of a conversion.
pub const COUNT: u32 = 1_000;

/// What a value is made of.
#[derive(Clone, Copy)]
pub struct Seed {
    /// The value's place, from 0.
    pub place: u32,
    /// A number without a pattern.
    pub number: i32,
}

impl Seed {
    /// The first seed.
    pub fn first() -> Seed {
        Seed {
            place: 0,
            number: 1,
        }
    }

    /// The seed after this one.
    pub fn next(self) -> Seed {
        Seed {
            place: self.place.wrapping_add(1),
            number: self.number.wrapping_mul(1_103_515_245).wrapping_add(12_345),
        }
    }

    /// The number's bytes, big-endian.
    pub fn bytes(self) -> [u8; 4] {
        self.number.to_be_bytes()
    }

    /// The number's bytes, twice.
    pub fn twice(self) -> [u8; 8] {
        let [a, b, c, d] = self.bytes();
        [a, b, c, d, a, b, c, d]
    }
}

/// A value of a case, which is made of a seed.
pub trait FromSeed: Sized + Drop {
    fn from_seed(alloc: Global, seed: Seed) -> Result<Self, Fault>;
}

/// NULL at every eighth place.
impl<T: FromSeed> FromSeed for Option<T> {
    fn from_seed(alloc: Global, seed: Seed) -> Result<Option<T>, Fault> {
        match seed.place % 8 {
            7 => Ok(None),
            _ => Ok(Some(T::from_seed(alloc, seed)?)),
        }
    }
}

/// Returns `count` values, each made of its seed.
pub fn values<T: FromSeed>(alloc: Global, count: u32) -> Result<Vec<T>, Fault> {
    let mut values = Vec::new(alloc);
    let mut seed = Seed::first();
    for _ in 0..count {
        values.push(T::from_seed(alloc, seed)?)?;
        seed = seed.next();
    }
    Ok(values)
}
