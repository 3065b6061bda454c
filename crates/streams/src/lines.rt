//! Answers each line of a reader, and writes the answers to a writer.
//!
//! The input is read in blocks. The answers to the lines that end in a block are written before the
//! next block is read, so memory holds no more than the longest line and the answers of one block.

ghost use Rattle.std.specs.Prelude.{alloc_error, ◌≡◌, ◌≢◌, ℕ, List, [], ◌∷◌, ◌++◌, ◌⊎◌, OnOk, OnErr, IfErr};
ghost use Rattle.streams.specs.Answers.{Answering, Saying, Within, GainsAnswers, WritesAnswers, EndsBy};
ghost use Rattle.streams.specs.Answers.{AnswersAll, AnswersSome, AnswersBefore, AnswersPart, AnswersGiven, IfRefused};
ghost use Rattle.streams.specs.Answers.{TakesLines, TakesSome, TakesBefore};
ghost use Rattle.streams.specs.Lines.{lines_of, IsOneLine};

use crate::blocks::{BLOCK, read_block, write_whole};
use crate::split::split_once;
use bytes::BytesMut;
use std::alloc::{AllocError, Global};
use std::io::{Read, Write};

/// A type that answers lines.
pub trait AnswerLine {
    /// Why a line is refused; running out of memory is such a fault too.
    type Fault: From<AllocError> + Drop;

    /// The text is an answer to the line.
    ghost answers: { Self → Answering };

    /// The line is refused with the fault.
    ghost refuses: { Self → Saying Self.Fault };

    /// Appends the answer to a line, with its line end, to `pending`. If the line is refused,
    /// `pending` keeps its bytes. Afterwards, every line has the same answers and the same refusals
    /// as before.
    fn answer(
        &mut self,
        alloc: Global,
        line: &[u8],
        pending: &mut BytesMut,
    ) -> Result<(), Self::Fault>
        ensures ok { OnOk result ((text : List ℕ) × answers self.old line.now text
            × (pending.new.items ≡ pending.old.items ++ text)) }
        ensures err { OnErr result (pending.new.items ≡ pending.old.items) }
        ensures refused { IfErr result (refuses self.old line.now) }
        ensures same_answers { Within (answers self.new) (answers self.old) }
        ensures same_refusals { Within (refuses self.new) (refuses self.old) };
}

/// Why a run stopped before every line was answered.
#[derive(Debug, Drop)]
pub enum RunFault<F> {
    /// The reader failed.
    Read,
    /// The writer failed, or wrote no byte.
    Write,
    /// A line was refused, or memory ran out.
    Refused(F),
}

/// Answers each line of the input.
///
/// A read or a write that was interrupted is retried. After a failed read, the complete answers to
/// some first lines are written; after a refusal, those to the lines before the refused one. After
/// a failed write, a prefix of the answers is written. The writer is not flushed.
pub fn answer_lines<A: AnswerLine, R: Read, W: Write>(
    alloc: Global,
    answerer: &mut A,
    input: &mut R,
    output: &mut W,
) -> Result<(), RunFault<A::Fault>>
    ensures ok { OnOk result (AnswersAll (A.answers answerer.old) (R.remaining input.old)
        (W.contents output.old) (W.contents output.new)) }
    ensures whole { IfErr result (λ e. e ≢ RunFault.Write → AnswersSome (A.answers answerer.old)
        (R.remaining input.old) (W.contents output.old) (W.contents output.new)) }
    ensures refused { IfErr result (λ e. IfRefused e (λ fault. A.Fault.from_gives alloc_error fault
        ⊎ AnswersBefore (A.answers answerer.old) (A.refuses answerer.old) fault (R.remaining input.old)
        (W.contents output.old) (W.contents output.new))) }
    ensures read { IfErr result (λ e. e ≡ RunFault.Read → AnswersGiven (A.answers answerer.old)
        (R.remaining input.old) (R.remaining input.new) (W.contents output.old) (W.contents output.new)) }
    ensures partial { IfErr result (λ e. e ≡ RunFault.Write → AnswersPart (A.answers answerer.old)
        (R.remaining input.old) (W.contents output.old) (W.contents output.new)) }
{
    let mut line = Vec::new(alloc);
    let mut pending = BytesMut::new(alloc);
    let mut block = [0; BLOCK];
    'reads: for _ in 0..u64::MAX {
        let Ok(n) = read_block(input, &mut block) else {
            return Err(RunFault::Read);
        };
        if n == 0 {
            return finish(alloc, answerer, line.as_slice(), &mut pending, output);
        }
        let taken = take_block(alloc, answerer, &block[..n], &mut line, &mut pending);
        // The lines before the refused one are still answered.
        if write_whole(output, pending.as_slice()).is_err() {
            return Err(RunFault::Write);
        }
        if let Err(fault) = taken {
            return Err(RunFault::Refused(fault));
        }
        pending.clear();
    }
    Err(RunFault::Read)
}

/// Answers each line that ends in the block, and keeps the bytes after the last of them.
fn take_block<A: AnswerLine>(
    alloc: Global,
    answerer: &mut A,
    block: &[u8],
    line: &mut Vec<u8>,
    pending: &mut BytesMut,
) -> Result<(), A::Fault>
    requires { IsOneLine line.old.items }
    ensures one_line { OnOk result (IsOneLine line.new.items) }
    ensures ok { OnOk result (TakesLines (A.answers answerer.old) (line.old.items ++ block.now) line.new.items
        pending.old.items pending.new.items) }
    ensures err { OnErr result (TakesSome (A.answers answerer.old) (line.old.items ++ block.now)
        pending.old.items pending.new.items) }
    ensures refused { IfErr result (λ fault. A.Fault.from_gives alloc_error fault
        ⊎ TakesBefore (A.answers answerer.old) (A.refuses answerer.old) fault (line.old.items ++ block.now)
        pending.old.items pending.new.items) }
    ensures same_answers { Within (A.answers answerer.new) (A.answers answerer.old) }
    ensures same_refusals { Within (A.refuses answerer.new) (A.refuses answerer.old) }
{
    let mut rest = block;
    'lines: while let Some((last, after)) = split_once(rest, b'\n') {
        end_line(alloc, answerer, last, line, pending)?;
        rest = after;
    }
    Ok(line.extend_from_slice(rest)?)
}

/// Answers the line that ends in these bytes, and clears the part of it that was kept.
fn end_line<A: AnswerLine>(
    alloc: Global,
    answerer: &mut A,
    last: &[u8],
    line: &mut Vec<u8>,
    pending: &mut BytesMut,
) -> Result<(), A::Fault>
    ensures ok { OnOk result (GainsAnswers (A.answers answerer.old) ((line.old.items ++ last.now) ∷ [])
        pending.old.items pending.new.items) }
    ensures forgets { OnOk result (line.new.items ≡ []) }
    ensures err { OnErr result (pending.new.items ≡ pending.old.items) }
    ensures refused { IfErr result (λ fault. A.Fault.from_gives alloc_error fault
        ⊎ A.refuses answerer.old (line.old.items ++ last.now) fault) }
    ensures same_answers { Within (A.answers answerer.new) (A.answers answerer.old) }
    ensures same_refusals { Within (A.refuses answerer.new) (A.refuses answerer.old) }
{
    // A line that is complete in a block is answered without copying it.
    if line.is_empty() {
        return answerer.answer(alloc, last, pending);
    }
    line.extend_from_slice(last)?;
    answerer.answer(alloc, line.as_slice(), pending)?;
    line.clear();
    Ok(())
}

/// Answers the last line, if no byte 10 ends it.
fn finish<A: AnswerLine, W: Write>(
    alloc: Global,
    answerer: &mut A,
    line: &[u8],
    pending: &mut BytesMut,
    output: &mut W,
) -> Result<(), RunFault<A::Fault>>
    requires one_line { IsOneLine line.now }
    requires empty { pending.old.items ≡ [] }
    ensures ok { OnOk result (WritesAnswers (A.answers answerer.old) (lines_of line.now)
        (W.contents output.old) (W.contents output.new)) }
    ensures err { IfErr result (EndsBy (A.answers answerer.old) (A.refuses answerer.old) line.now
        (W.contents output.old) (W.contents output.new)) }
{
    if line.is_empty() {
        return Ok(());
    }
    if let Err(fault) = answerer.answer(alloc, line, pending) {
        return Err(RunFault::Refused(fault));
    }
    match write_whole(output, pending.as_slice()) {
        Ok(()) => Ok(()),
        Err(_) => Err(RunFault::Write),
    }
}
