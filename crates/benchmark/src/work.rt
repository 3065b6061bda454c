//! Reading and writing again and again.

use crate::sum::{mix, mix_bytes};
use crate::values::{COUNT, FromSeed, values};
use postgres_types::private::{BytesMut, read_value};
use postgres_types::{Fault, FromSql, Kind, Oid, ToSql, Type, frame_value};
use std::alloc::Global;

/// What is measured of a conversion.
#[derive(Clone, Copy)]
pub enum Way {
    Read,
    Write,
}

/// A case: what is measured, and how often it is done.
#[derive(Clone, Copy)]
pub struct Work {
    pub alloc: Global,
    pub way: Way,
    pub turns: u32,
}

/// The checksum of what a case made, or `None` if there is no case with this name.
pub type Made = Option<Result<u64, Fault>>;

/// Returns the number of items that the name states after this prefix.
pub fn stated(name: &str, prefix: &str) -> Option<u32> {
    name.strip_prefix(prefix)?.parse().ok()
}

/// A user-defined type in the schema `public`.
pub fn user_type(alloc: Global, name: &str, oid: Oid, kind: Kind) -> Result<Type, Fault> {
    let name = String::from_str(alloc, name)?;
    let schema = String::from_str(alloc, "public")?;
    Type::new(alloc, name, oid, kind, schema)
}

/// The values' frames, one after another.
pub fn frames_of<T: ToSql>(alloc: Global, values: &[T], ty: &Type) -> Result<BytesMut, Fault> {
    let mut out = BytesMut::new(alloc);
    append_frames(alloc, values, ty, &mut out)?;
    Ok(out)
}

/// Appends the values' frames.
fn append_frames<T: ToSql>(
    alloc: Global,
    values: &[T],
    ty: &Type,
    out: &mut BytesMut,
) -> Result<(), Fault> {
    for value in values {
        frame_value(alloc, value, ty, out)?;
    }
    Ok(())
}

/// Writes the frames of the values in each turn, each time into the same buffer. Returns the
/// checksum of their lengths and of the last frames.
pub fn write_turns<T: ToSql>(work: Work, values: &[T], ty: &Type) -> Result<u64, Fault> {
    let mut out = BytesMut::new(work.alloc);
    let mut sum = 0;
    for _ in 0..work.turns {
        out.clear();
        append_frames(work.alloc, values, ty, &mut out)?;
        sum = mix(sum, out.len() as u64);
    }
    Ok(mix_bytes(sum, out.as_slice()))
}

/// Reads a number of values from the front of the frames.
fn read_frames<'a, T: FromSql<'a> + ToSql>(
    alloc: Global,
    frames: &'a [u8],
    count: usize,
    ty: &Type,
    values: &mut Vec<T>,
) -> Result<(), Fault> {
    if !<T as FromSql<'a>>::accepts(ty) {
        return Err(Fault::user("not accepted"));
    }
    let mut buf = frames;
    for _ in 0..count {
        values.push(read_value(alloc, ty, &mut buf)?)?;
    }
    Ok(())
}

/// Reads the values from their frames in each turn, each time into the same list. Returns the
/// checksum of the frames of the last values.
pub fn read_turns<'a, T: FromSql<'a> + ToSql>(
    work: Work,
    frames: &'a [u8],
    count: usize,
    ty: &Type,
) -> Result<u64, Fault> {
    let mut values: Vec<T> = Vec::new(work.alloc);
    for _ in 0..work.turns {
        values.clear();
        read_frames(work.alloc, frames, count, ty, &mut values)?;
    }
    let again = frames_of(work.alloc, values.as_slice(), ty)?;
    Ok(mix_bytes(0, again.as_slice()))
}

/// Writes the values, or reads them as an `R`, as the case states. The frames that are read are
/// written to the buffer.
pub fn measure_values<'a, T: ToSql, R: FromSql<'a> + ToSql>(
    work: Work,
    frames: &'a mut BytesMut,
    ty: &Type,
    values: &[T],
) -> Result<u64, Fault> {
    match work.way {
        Way::Write => write_turns(work, values, ty),
        Way::Read => {
            append_frames(work.alloc, values, ty, frames)?;
            read_turns::<R>(work, frames.as_slice(), values.len(), ty)
        }
    }
}

/// Does the same with values of a `T`, each made of its seed.
pub fn measure_as<'a, T: FromSeed + ToSql, R: FromSql<'a> + ToSql>(
    work: Work,
    frames: &'a mut BytesMut,
    ty: &Type,
) -> Result<u64, Fault> {
    let values: Vec<T> = values(work.alloc, COUNT)?;
    measure_values::<T, R>(work, frames, ty, values.as_slice())
}

/// Does the same with values that are read as their own type.
pub fn measure<'a, T: FromSeed + FromSql<'a> + ToSql>(
    work: Work,
    frames: &'a mut BytesMut,
    ty: &Type,
) -> Result<u64, Fault> {
    measure_as::<T, T>(work, frames, ty)
}
