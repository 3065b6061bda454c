//! Rows of eight columns, values in a row, parameters, and cells that are rewritten.

use crate::sum::{mix, mix_bytes};
use crate::values::{COUNT, values};
use crate::work::{Made, Work, frames_of, stated};
use postgres_types::private::{BytesMut, read_value, read_values};
use postgres_types::{Fault, Paired, ToSql, Type, frame_value, params_to_sql, rewrite};
use std::alloc::Global;

/// Runs the case with this name, if it is in this file: there are as many parameters as a name
/// states.
pub fn run(name: &str, work: Work) -> Made {
    Some(match name {
        "row-8" => read_rows(work),
        "values-8" => read_runs(work),
        "params-8" => bind(work),
        "rewrite-int4" => rewrite_numbers(work),
        "rewrite-text" => rewrite_texts(work),
        _ => bind_many(work, stated(name, "params-")?),
    })
}

/// Writes the frames of `count` parameters, each of which is a number.
fn bind_many(work: Work, count: u32) -> Result<u64, Fault> {
    let mut params: Vec<Box<dyn ToSql>> = Vec::new(work.alloc);
    let mut types = Vec::new(work.alloc);
    for place in 0..count {
        params.push(Box::new(work.alloc, i64::from(place))?)?;
        types.push(Type::INT8)?;
    }
    bind_turns(work, params.as_slice(), types.as_slice())
}

/// Writes the frames of eight parameters, of which the fifth is NULL.
fn bind(work: Work) -> Result<u64, Fault> {
    let alloc = work.alloc;
    let name = String::from_str(alloc, "a name")?;
    let text = String::from_str(alloc, "a longer text of a parameter")?;
    let params: [Box<dyn ToSql>; 8] = [
        Box::new(alloc, 1_000_000i32)?,
        Box::new(alloc, -5_000_000_000i64)?,
        Box::new(alloc, true)?,
        Box::new(alloc, 4_000_000_000u32)?,
        Box::new(alloc, None::<i32>)?,
        Box::new(alloc, name)?,
        Box::new(alloc, 77i16)?,
        Box::new(alloc, text)?,
    ];
    let types = [
        Type::INT4,
        Type::INT8,
        Type::BOOL,
        Type::OID,
        Type::INT4,
        Type::TEXT,
        Type::INT2,
        Type::TEXT,
    ];
    bind_turns(work, &params, &types)
}

/// Writes the frames of the parameters in each turn, each time into the same buffer.
fn bind_turns(work: Work, params: &[Box<dyn ToSql>], types: &[Type]) -> Result<u64, Fault> {
    if params.len() != types.len() {
        return Err(Fault::user("not as many types as parameters"));
    }
    let mut out = BytesMut::new(work.alloc);
    let mut sum = 0;
    for _ in 0..work.turns {
        out.clear();
        if let Err((_, fault)) = params_to_sql(work.alloc, params, types, &mut out) {
            return Err(fault);
        }
        sum = mix(sum, out.len() as u64);
    }
    Ok(mix_bytes(sum, out.as_slice()))
}

/// Returns the frames of the same values.
fn row(alloc: Global) -> Result<BytesMut, Fault> {
    let mut out = BytesMut::new(alloc);
    frame_value(alloc, &1_000_000i32, &Type::INT4, &mut out)?;
    frame_value(alloc, &-5_000_000_000i64, &Type::INT8, &mut out)?;
    frame_value(alloc, &true, &Type::BOOL, &mut out)?;
    frame_value(alloc, &4_000_000_000u32, &Type::OID, &mut out)?;
    frame_value(alloc, &None::<i32>, &Type::INT4, &mut out)?;
    frame_value(alloc, &"a name", &Type::TEXT, &mut out)?;
    frame_value(alloc, &77i16, &Type::INT2, &mut out)?;
    frame_value(
        alloc,
        &"a longer text of a parameter",
        &Type::TEXT,
        &mut out,
    )?;
    Ok(out)
}

/// Reads the row, and returns the sum of the values of its columns.
fn read_row(alloc: Global, row: &[u8]) -> Result<u64, Fault> {
    let mut buf = row;
    let first: i32 = read_value(alloc, &Type::INT4, &mut buf)?;
    let second: i64 = read_value(alloc, &Type::INT8, &mut buf)?;
    let third: bool = read_value(alloc, &Type::BOOL, &mut buf)?;
    let fourth: u32 = read_value(alloc, &Type::OID, &mut buf)?;
    let fifth: Option<i32> = read_value(alloc, &Type::INT4, &mut buf)?;
    let sum = mix(u64::from(fourth), u64::from(third));
    let sum = mix(sum, u64::from(fifth.is_none()));
    let sum = mix(
        mix(sum, u64::from_be_bytes(second.to_be_bytes())),
        u64::from(first.unsigned_abs()),
    );
    read_last_columns(alloc, buf, sum)
}

/// Reads the last three columns of the row.
fn read_last_columns(alloc: Global, columns: &[u8], sum: u64) -> Result<u64, Fault> {
    let mut buf = columns;
    let sixth: &str = read_value(alloc, &Type::TEXT, &mut buf)?;
    let seventh: i16 = read_value(alloc, &Type::INT2, &mut buf)?;
    let eighth: &str = read_value(alloc, &Type::TEXT, &mut buf)?;
    let sum = mix(
        mix(sum, sixth.len() as u64),
        u64::from(seventh.unsigned_abs()),
    );
    Ok(mix(sum, eighth.len() as u64))
}

fn read_rows(work: Work) -> Result<u64, Fault> {
    let row = row(work.alloc)?;
    let mut sum = 0;
    for _ in 0..work.turns {
        sum = mix(sum, read_row(work.alloc, row.as_slice())?);
    }
    Ok(sum)
}

/// Reads eight numbers at once.
fn read_runs(work: Work) -> Result<u64, Fault> {
    let numbers: Vec<i32> = values(work.alloc, 8)?;
    let frames = frames_of(work.alloc, numbers.as_slice(), &Type::INT4)?;
    let mut sum = 0;
    for _ in 0..work.turns {
        let mut buf = frames.as_slice();
        let run: Vec<i32> = read_values(work.alloc, &Type::INT4, 8, &mut buf)?;
        for number in &run {
            sum = mix(sum, u64::from(number.unsigned_abs()));
        }
    }
    Ok(sum)
}

/// Rewrites each cell in each turn, into the same buffer.
fn rewrite_turns<'a, T: Paired<'a>>(
    work: Work,
    cells: &'a [&'a [u8]],
    ty: &Type,
) -> Result<u64, Fault> {
    let mut out = BytesMut::new(work.alloc);
    let mut sum = 0;
    for _ in 0..work.turns {
        out.clear();
        rewrite_once::<T>(work.alloc, cells, ty, &mut out)?;
        sum = mix(sum, out.len() as u64);
    }
    Ok(mix_bytes(sum, out.as_slice()))
}

/// Rewrites each cell.
fn rewrite_once<'a, T: Paired<'a>>(
    alloc: Global,
    cells: &'a [&'a [u8]],
    ty: &Type,
    out: &mut BytesMut,
) -> Result<(), Fault> {
    for cell in cells {
        rewrite::<T>(alloc, ty, Some(*cell), out)?;
    }
    Ok(())
}

/// Returns the cells of the frames.
fn cells_of<'a>(alloc: Global, frames: &'a [u8]) -> Result<Vec<&'a [u8]>, Fault> {
    let mut buf = frames;
    let mut cells = Vec::new(alloc);
    for _ in 0..COUNT {
        cells.push(read_value(alloc, &Type::BYTEA, &mut buf)?)?;
    }
    Ok(cells)
}

fn rewrite_numbers(work: Work) -> Result<u64, Fault> {
    let numbers: Vec<i32> = values(work.alloc, COUNT)?;
    let frames = frames_of(work.alloc, numbers.as_slice(), &Type::INT4)?;
    let cells = cells_of(work.alloc, frames.as_slice())?;
    rewrite_turns::<i32>(work, cells.as_slice(), &Type::INT4)
}

fn rewrite_texts(work: Work) -> Result<u64, Fault> {
    let texts: Vec<String> = values(work.alloc, COUNT)?;
    let frames = frames_of(work.alloc, texts.as_slice(), &Type::TEXT)?;
    let cells = cells_of(work.alloc, frames.as_slice())?;
    rewrite_turns::<String>(work, cells.as_slice(), &Type::TEXT)
}
