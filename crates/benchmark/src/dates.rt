//! Dates, times of day and timestamps.

use crate::values::{FromSeed, Seed};
use crate::work::{Made, Work, measure};
use jiff::civil;
use postgres_types::private::BytesMut;
use postgres_types::{Date, Fault, Timestamp, Type, UnixTime};
use std::alloc::Global;

/// Runs the case with this name, if it is in this file.
pub fn run(name: &str, work: Work, frames: &mut BytesMut) -> Made {
    Some(match name {
        "date" => measure::<civil::Date>(work, frames, &Type::DATE),
        "date_inf" => measure::<Date<civil::Date>>(work, frames, &Type::DATE),
        "time" => measure::<civil::Time>(work, frames, &Type::TIME),
        "timestamp" => measure::<civil::DateTime>(work, frames, &Type::TIMESTAMP),
        "timestamptz" => measure::<jiff::Timestamp>(work, frames, &Type::TIMESTAMPTZ),
        "unix" => measure::<UnixTime>(work, frames, &Type::TIMESTAMP),
        "unix_inf" => measure::<Timestamp<UnixTime>>(work, frames, &Type::TIMESTAMP),
        _ => return None,
    })
}

/// A date from 2000 to 2255, in the first eight months.
impl FromSeed for civil::Date {
    fn from_seed(_alloc: Global, seed: Seed) -> Result<civil::Date, Fault> {
        let [a, b, c, _] = seed.bytes();
        let year = i16::from(a).wrapping_add(2_000);
        let month = i8::from_be_bytes([b & 7]).wrapping_add(1);
        let day = i8::from_be_bytes([c & 15]).wrapping_add(1);
        match civil::Date::new(year, month, day) {
            Ok(date) => Ok(date),
            Err(_) => Err(Fault::Decode),
        }
    }
}

/// A time of day of whole microseconds.
impl FromSeed for civil::Time {
    fn from_seed(_alloc: Global, seed: Seed) -> Result<civil::Time, Fault> {
        let [a, b, c, d] = seed.bytes();
        let hour = i8::from_be_bytes([a & 15]);
        let minute = i8::from_be_bytes([b & 31]);
        let second = i8::from_be_bytes([c & 31]);
        let nanos = i32::from(u16::from_be_bytes([c, d])).wrapping_mul(1_000);
        match civil::Time::new(hour, minute, second, nanos) {
            Ok(time) => Ok(time),
            Err(_) => Err(Fault::Decode),
        }
    }
}

impl FromSeed for civil::DateTime {
    fn from_seed(alloc: Global, seed: Seed) -> Result<civil::DateTime, Fault> {
        let date = civil::Date::from_seed(alloc, seed)?;
        let time = civil::Time::from_seed(alloc, seed)?;
        Ok(date.to_datetime(time))
    }
}

/// Seconds and nanoseconds from 1970, within 68 years of 2000.
fn seconds(seed: Seed) -> (i64, i32) {
    let [_, _, c, d] = seed.bytes();
    let secs = i64::from(seed.number).wrapping_add(946_684_800);
    (
        secs,
        i32::from(u16::from_be_bytes([c, d])).wrapping_mul(1_000),
    )
}

impl FromSeed for jiff::Timestamp {
    fn from_seed(_alloc: Global, seed: Seed) -> Result<jiff::Timestamp, Fault> {
        let (secs, nanos) = seconds(seed);
        match jiff::Timestamp::new(secs, nanos) {
            Ok(time) => Ok(time),
            Err(_) => Err(Fault::Decode),
        }
    }
}

impl FromSeed for UnixTime {
    fn from_seed(_alloc: Global, seed: Seed) -> Result<UnixTime, Fault> {
        let (secs, nanos) = seconds(seed);
        match UnixTime::new(secs, nanos.unsigned_abs()) {
            Some(time) => Ok(time),
            None => Err(Fault::Decode),
        }
    }
}

/// No infinity.
impl<T: FromSeed> FromSeed for Date<T> {
    fn from_seed(alloc: Global, seed: Seed) -> Result<Date<T>, Fault> {
        Ok(Date::Value(T::from_seed(alloc, seed)?))
    }
}

/// No infinity.
impl<T: FromSeed> FromSeed for Timestamp<T> {
    fn from_seed(alloc: Global, seed: Seed) -> Result<Timestamp<T>, Fault> {
        Ok(Timestamp::Value(T::from_seed(alloc, seed)?))
    }
}
