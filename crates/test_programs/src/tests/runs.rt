//! Tests of runs over lines, with readers and writers that move a few bytes at a time or fail: the
//! contract says what is written, and leaves open which runs end well.
ghost use Rattle.std.specs.Prelude.{◌≡◌, ◌∷◌, ◌++◌, []};

use super::fake_streams::{Blocked, Disturbed, Narrow, Pieces, ROOM, Stalled};
use bytes::BytesMut;
use std::alloc::{AllocError, Global};
use std::test::Fail;
use streams::blocks::BLOCK;
use streams::lines::{AnswerLine, RunFault, answer_lines};
use test_support::{holds, same};

/// Answers each line with the line itself, and byte 10.
#[derive(Drop)]
struct Echo;

impl AnswerLine for Echo {
    type Fault = AllocError;

    ghost answers = { λ _ line text. text ≡ line ++ 10 ∷ [] };

    ghost refuses = { λ _ _ _. Unit {0} };

    fn answer(&mut self, _: Global, line: &[u8], pending: &mut BytesMut) -> Result<(), AllocError> {
        let start = pending.len();
        pending.extend_from_slice(line)?;
        if pending.extend_from_slice(b"\n").is_err() {
            pending.truncate(start);
            return Err(AllocError);
        }
        Ok(())
    }
}

/// An empty line between others, the last of which a byte 10 ends.
const LINES: &[u8] = b"first\n\nsecond line\nthird\r\n\xff\n";

/// The number of bytes that a stream moves at a time.
const STEPS: [usize; 5] = [1, 2, 3, 7, ROOM];

/// Tests that a text of whole lines is answered by itself, with streams that move `step` bytes at a
/// time, and are interrupted.
fn is_echoed(alloc: Global, text: &[u8], step: usize) -> Result<(), Fail> {
    let mut input = Disturbed::new(Pieces::new(text, step));
    let mut output = Disturbed::new(Narrow::new(alloc, step, ROOM));
    answer_lines(alloc, &mut Echo, &mut input, &mut output)?;
    holds(output.inner.taken.as_slice() == text, "another answer")
}

#[test]
fn streams_may_move_few_bytes(rt: HostRuntime) -> Result<(), Fail> {
    let mut long = Vec::new(rt.alloc());
    long.resize(4 * BLOCK, b'6')?;
    long.push(b'\n')?;
    for step in STEPS {
        is_echoed(rt.alloc(), LINES, step)?;
        is_echoed(rt.alloc(), long.as_slice(), step)?;
    }
    Ok(())
}

#[test]
fn a_stream_that_would_block_has_failed(rt: HostRuntime) -> Result<(), Fail> {
    let mut taken = Vec::new(rt.alloc());
    let ended = answer_lines(rt.alloc(), &mut Echo, &mut Blocked, &mut taken);
    holds(matches!(ended, Err(RunFault::Read)), "no failed read")?;
    let mut input = LINES;
    let ended = answer_lines(rt.alloc(), &mut Echo, &mut input, &mut Blocked);
    holds(matches!(ended, Err(RunFault::Write)), "no failed write")
}

#[test]
fn a_failed_read_is_told(rt: HostRuntime) -> Result<(), Fail> {
    for left in 0..=LINES.len() {
        let (rest, step) = (LINES, 5);
        let mut input = Disturbed::new(Pieces { rest, step, left });
        let mut taken = Vec::new(rt.alloc());
        let ended = answer_lines(rt.alloc(), &mut Echo, &mut input, &mut taken);
        holds(matches!(ended, Err(RunFault::Read)), "no failed read")?;
        let out = taken.as_slice();
        let is_whole = LINES.starts_with(out) && (out.is_empty() || out.ends_with(b"\n"));
        holds(is_whole, "a part of an answer")?;
    }
    Ok(())
}

/// Tests that writing failed after the first `count` bytes of the answers.
fn is_not_written(is_fault: bool, taken: &[u8], count: usize) -> Result<(), Fail> {
    holds(is_fault, "no failed write")?;
    same(Some(taken), LINES.get(..count))
}

#[test]
fn a_failed_write_is_told(rt: HostRuntime) -> Result<(), Fail> {
    for room in 0..LINES.len() {
        let mut input = LINES;
        let mut output = Narrow::new(rt.alloc(), 2, room);
        let ended = answer_lines(rt.alloc(), &mut Echo, &mut input, &mut output);
        let is_write = matches!(ended, Err(RunFault::Write));
        is_not_written(is_write, output.taken.as_slice(), room)?;
    }
    Ok(())
}

#[test]
fn a_writer_that_takes_no_byte_has_failed(rt: HostRuntime) -> Result<(), Fail> {
    for room in 0..LINES.len() {
        let mut input = LINES;
        let taken = Vec::new(rt.alloc());
        let mut output = Stalled { taken, room };
        let ended = answer_lines(rt.alloc(), &mut Echo, &mut input, &mut output);
        let is_write = matches!(ended, Err(RunFault::Write));
        is_not_written(is_write, output.taken.as_slice(), room)?;
    }
    Ok(())
}
