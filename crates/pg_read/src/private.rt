//! The calls from which conversions of rows and records are built: they read framed cells from the
//! front of a slice.
ghost use Rattle.std.specs.Prelude.{◌≡◌, ◌<◌, ◌∷◌, ℕ, [], IfOk, IsTrue, OnErr, slice_index, vec_capacity};
ghost use Rattle.pg_base.specs.Cells.{Cell, FramesSingle, FramePrefixesSingle};
ghost use Rattle.pg_types.specs.Content.{content};
ghost use Rattle.pg_read.specs.FrameReading.{TakesNumber, TakesCell, ReadsFrame};
ghost use Rattle.pg_read.specs.RunReading.{HaveBeenRead, ReadsFrames, ReadsRun, first_room};

use crate::from_sql::FromSql;
pub use bytes::BytesMut;
use pg_base::fault::Fault;
use pg_base::protocol::split_number;
use pg_base::types::PgType;
use std::alloc::Global;

/// Reads a number of 4 bytes, big-endian, in two's complement, and advances the slice past it. If
/// fewer bytes are left it returns `Size`, and the slice is unchanged.
pub fn read_be_i32(buf: &mut &[u8]) -> Result<i32, Fault>
    ensures { TakesNumber buf.old.now result buf.new.now }
{
    let (n, rest) = split_number(*buf)?;
    *buf = rest;
    Ok(n)
}

/// Takes the framed cell from the front of the slice: a length of 4 bytes, big-endian, and as many
/// bytes; every negative length is NULL. A truncated cell is refused with `Size`, and the slice is
/// as [`read_value`] leaves it.
pub fn take_cell<'a>(buf: &mut &'a [u8]) -> Result<Option<&'a [u8]>, Fault>
    ensures { TakesCell buf.old.now result buf.new.now }
{
    let len = read_be_i32(buf)?;
    if len < 0 {
        return Ok(None);
    }
    let len = len as usize;
    let bytes = *buf;
    if bytes.len() < len {
        return Err(Fault::Size);
    }
    let (cell, rest) = bytes.split_at(len);
    *buf = rest;
    Ok(Some(cell))
}

/// Reads the framed cell at the front of the slice: a length of 4 bytes, big-endian, and as many
/// bytes; every negative length is NULL. The type must be accepted.
///
/// If the length is truncated it returns `Size`, and the slice is unchanged. If the cell is
/// truncated it returns `Size`, and the slice begins after the length. Otherwise the slice begins
/// after the cell, whether the conversion returns a value or a fault.
pub fn read_value<'a, T: FromSql<'a>>(
    alloc: Global,
    type_: &PgType,
    buf: &mut &'a [u8],
) -> Result<T, Fault>
    requires { IsTrue (T.accepted (content type_.now)) }
    ensures { ReadsFrame (T.reads (content type_.now)) T.memory_free buf.old.now result buf.new.now }
{
    match take_cell(buf)? {
        Some(raw) => T::from_sql(alloc, type_, raw),
        None => T::from_sql_null(alloc, type_),
    }
}

/// Reads the first of `n` consecutive framed cells, as [`read_value`] does, to a list that has room
/// for at most `n` values, and for no more than there would be if each further frame had the length
/// of the first. So a count without the bytes for it takes no memory, and a list of values of one
/// length is allocated once.
fn read_first<'a, T: FromSql<'a>>(
    alloc: Global,
    type_: &PgType,
    n: usize,
    buf: &mut &'a [u8],
) -> Result<Vec<T>, Fault>
    requires accepted { IsTrue (T.accepted (content type_.now)) }
    requires some { 0 < n }
    ensures read { IfOk result (λ v. (c : Cell)
        × HaveBeenRead (T.reads (content type_.now)) buf.old.now (c ∷ []) v.items buf.new.now) }
    ensures stops { OnErr result (ReadsRun (λ v. v.items) (T.reads (content type_.now)) buf.old.now n result
        buf.new.now) }
    ensures room { IfOk result (λ v. vec_capacity v ≡ first_room n buf.old.now buf.new.now) }
{
    holds_bytes(*buf);
    let whole = buf.len();
    let first = read_value(alloc, type_, buf)?;
    let mut values = Vec::with_capacity(alloc, n.min(whole / (whole - buf.len())))?;
    values.push_reserved(first);
    Ok(values)
}

/// Each item of a slice of bytes is below 256; proofs know this only of the arguments of a
/// function.
fn holds_bytes(bytes: &[u8])
    ensures { (i : ℕ) → slice_index bytes.now i < 256 }
{}

/// Reads `n` consecutive framed cells from the front of the slice, as `n` calls of [`read_value`]
/// do. The type must be accepted. Memory is taken after the first value was read, for as many as the
/// bytes can hold, whatever `n` is.
///
/// The first cell that is refused gives the fault, and the slice begins after that cell. If a cell
/// is truncated before `n` are read, and none before it is refused, it returns `Size`, and the
/// slice is as [`read_value`] leaves it at a truncated cell. If memory runs out, the slice begins
/// after a cell, and each cell before that one gives a value. Otherwise the slice begins after the
/// last cell.
///
/// The frames of `n` cells, with any bytes after them, are the frames of no other cells. If each of
/// these cells gives a value, the call returns those values, or `Memory`.
#[tactic(auto, using(pg_base::proofs::CellLaws::frames_single, pg_base::proofs::CellLaws::frame_prefixes_single))]
#[inline(always)]
pub fn read_values<'a, T: FromSql<'a>>(
    alloc: Global,
    type_: &PgType,
    n: usize,
    buf: &mut &'a [u8],
) -> Result<Vec<T>, Fault>
    requires { IsTrue (T.accepted (content type_.now)) }
    ensures run { ReadsRun (λ v. v.items) (T.reads (content type_.now)) buf.old.now n result buf.new.now }
    ensures frames { ReadsFrames (λ v. v.items) T.same (T.reads (content type_.now)) buf.old.now n result buf.new.now }
    ensures frames_single { FramesSingle }
    ensures frame_prefixes_single { FramePrefixesSingle }
{
    holds_bytes(*buf);
    if n == 0 {
        return Ok(Vec::new(alloc));
    }
    let mut values = read_first(alloc, type_, n, buf)?;
    for _ in 1..n {
        let Ok(cell) = take_cell(buf) else {
            return Err(Fault::Size);
        };
        // What is matched here stays in registers. A result of `read_value` does not.
        match cell {
            Some(raw) => values.push(T::from_sql(alloc, type_, raw)?)?,
            None => values.push(T::from_sql_null(alloc, type_)?)?,
        }
    }
    Ok(values)
}
