//! Tests of streams that move in pieces, or fail.

use crate::tests::fake_streams::{Disturbed, Narrow, Pieces, ROOM};
use pg_copy::arguments::{Request, parse};
use pg_copy::columns::Column;
use pg_copy::copy_fault::CopyFault;
use pg_copy::read::read;
use pg_copy::write::write;
use std::alloc::Global;
use std::test::Fail;
use test_support::{displays, holds, same};

/// Two rows in both formats.
const LINES: &[u8] = b"1\ta\\tb\n-2\t\\N\n";

const STREAM: &[u8] =
    b"PGCOPY\n\xff\r\n\0\0\0\0\0\0\0\0\0\0\x02\0\0\0\x04\0\0\0\x01\0\0\0\x03a\tb\0\x02\0\0\0\x04\
      \xff\xff\xff\xfe\xff\xff\xff\xff\xff\xff";

/// The number of bytes that a stream moves at a time.
const STEPS: [usize; 4] = [1, 2, 3, 7];

/// A reader that gives the bytes `step` at a time, and is interrupted at every other call.
fn make_pieces(bytes: &[u8], step: usize) -> Disturbed<Pieces<'_>> {
    Disturbed::new(Pieces::new(bytes, step))
}

/// A writer that takes `room` bytes, `step` at a time, and is interrupted at every other call.
fn make_narrow(alloc: Global, step: usize, room: usize) -> Disturbed<Narrow> {
    Disturbed::new(Narrow::new(alloc, step, room))
}

/// Returns the columns of these types.
fn columns(alloc: Global, types: &str) -> Result<Vec<Column>, Fail> {
    let mut words = Vec::new(alloc);
    words.push(String::from_str(alloc, types)?)?;
    match parse(alloc, words.as_slice())? {
        Request::Copy(columns) => Ok(columns),
        Request::Help => Err(Fail::from("help")),
    }
}

#[test]
fn pieces_change_no_copy(rt: HostRuntime) -> Result<(), Fail> {
    let columns = columns(rt.alloc(), "int4, text")?;
    for step in STEPS {
        let mut input = make_pieces(STREAM, step);
        let mut output = make_narrow(rt.alloc(), step, ROOM);
        read(rt.alloc(), columns.as_slice(), &mut input, &mut output)?;
        same(output.inner.taken.as_slice(), LINES)?;
        let mut input = make_pieces(LINES, step);
        let mut output = make_narrow(rt.alloc(), step, ROOM);
        write(rt.alloc(), columns.as_slice(), &mut input, &mut output)?;
        same(output.inner.taken.as_slice(), STREAM)?;
    }
    Ok(())
}

/// Tests that lines of a column of text are written, and read `step` bytes at a time.
fn is_copied(alloc: Global, lines: &[u8], step: usize) -> Result<(), Fail> {
    let columns = columns(alloc, "text")?;
    let mut input = lines;
    let mut stream = Narrow::new(alloc, usize::MAX, usize::MAX);
    write(alloc, columns.as_slice(), &mut input, &mut stream)?;
    let (rest, left) = (stream.taken.as_slice(), usize::MAX);
    let mut input = Pieces { rest, step, left };
    let mut output = Narrow::new(alloc, ROOM, left);
    read(alloc, columns.as_slice(), &mut input, &mut output)?;
    holds(output.taken.as_slice() == lines, "other lines")
}

/// A row that is longer than a block, and a million reads of one byte.
#[test]
fn large_copies_are_read(rt: HostRuntime) -> Result<(), Fail> {
    let mut long = Vec::new(rt.alloc());
    long.resize(300_000, b'x')?;
    long.push(b'\n')?;
    is_copied(rt.alloc(), long.as_slice(), ROOM)?;
    let mut rows = Vec::new(rt.alloc());
    for _ in 0..170_000 {
        rows.extend_from_slice(b"\\N\n")?;
    }
    is_copied(rt.alloc(), rows.as_slice(), 1)
}

#[test]
fn a_failed_read_is_told(rt: HostRuntime) -> Result<(), Fail> {
    let columns = columns(rt.alloc(), "int4, text")?;
    for left in 0..STREAM.len() {
        let (rest, step) = (STREAM, 5);
        let mut input = Disturbed::new(Pieces { rest, step, left });
        let mut output = make_narrow(rt.alloc(), 9, ROOM);
        let ended = read(rt.alloc(), columns.as_slice(), &mut input, &mut output);
        holds(matches!(ended, Err(CopyFault::Read)), "no failed read")?;
    }
    Ok(())
}

/// A row, then a refused one, in both formats, and what each program writes of them.
const REFUSED_STREAM: &[u8] =
    b"PGCOPY\n\xff\r\n\0\0\0\0\0\0\0\0\0\0\x02\0\0\0\x04\0\0\0\x01\0\0\0\x01a\0\x03";

const REFUSED_LINES: &[u8] = b"1\ta\n2\n3\tc\n";

const LINES_AND_FAULT: &[u8] = b"1\ta\n\\.fault: row 2: 3 columns in place of 2\n";

const STOPPED_STREAM: &[u8] =
    b"PGCOPY\n\xff\r\n\0\0\0\0\0\0\0\0\0\0\x02\0\0\0\x04\0\0\0\x01\0\0\0\x01a\x80\0";

/// Tests that writing failed after these bytes.
fn is_not_written(is_fault: bool, taken: &[u8], written: Option<&[u8]>) -> Result<(), Fail> {
    holds(is_fault, "no failed write")?;
    same(Some(taken), written)
}

#[test]
fn a_failed_write_of_lines_is_told(rt: HostRuntime) -> Result<(), Fail> {
    let columns = columns(rt.alloc(), "int4, text")?;
    for room in 0..LINES_AND_FAULT.len() {
        let mut input = make_pieces(REFUSED_STREAM, 9);
        let mut output = make_narrow(rt.alloc(), 2, room);
        let ended = read(rt.alloc(), columns.as_slice(), &mut input, &mut output);
        let is_write = matches!(ended, Err(CopyFault::Write));
        let written = LINES_AND_FAULT.get(..room);
        is_not_written(is_write, output.inner.taken.as_slice(), written)?;
    }
    Ok(())
}

#[test]
fn a_failed_write_of_rows_is_told(rt: HostRuntime) -> Result<(), Fail> {
    let columns = columns(rt.alloc(), "int4, text")?;
    for room in 0..STOPPED_STREAM.len() {
        let mut input = make_pieces(REFUSED_LINES, 9);
        let mut output = make_narrow(rt.alloc(), 2, room);
        let ended = write(rt.alloc(), columns.as_slice(), &mut input, &mut output);
        let is_write = matches!(ended, Err(CopyFault::Write));
        let written = STOPPED_STREAM.get(..room);
        is_not_written(is_write, output.inner.taken.as_slice(), written)?;
    }
    Ok(())
}

/// The faults that no row of `scripts/copy_rows.py` has.
#[test]
fn faults_have_texts(rt: HostRuntime) -> Result<(), Fail> {
    let alloc = rt.alloc();
    displays(alloc, &CopyFault::Read, "the input cannot be read")?;
    displays(alloc, &CopyFault::Write, "the output cannot be written")?;
    displays(alloc, &CopyFault::Memory, "out of memory")?;
    let text = "more columns than a COPY can have";
    displays(alloc, &CopyFault::TooManyColumns, text)
}
