//! Runs over lines: what the program does.
ghost use Rattle.std.specs.Prelude.{◌≡◌, ◌≢◌, OnOk, IfErr};
ghost use Rattle.pgcell.specs.Answer.{AnswersLine};
ghost use Rattle.streams.specs.Answers.{AnswersAll, AnswersGiven, AnswersPart, AnswersSome};

use crate::answer::Answerer;
use std::alloc::{AllocError, Global};
use std::io::{Read, Write};
use streams::lines::{RunFault, answer_lines};

/// Answers each line of the input, as `answer_lines` does.
pub fn run<R: Read, W: Write>(
    alloc: Global,
    input: &mut R,
    output: &mut W,
) -> Result<(), RunFault<AllocError>>
    ensures ok { OnOk result (AnswersAll AnswersLine (R.remaining input.old)
        (W.contents output.old) (W.contents output.new)) }
    ensures whole { IfErr result (λ e. e ≢ RunFault.Write → AnswersSome AnswersLine (R.remaining input.old)
        (W.contents output.old) (W.contents output.new)) }
    ensures read { IfErr result (λ e. e ≡ RunFault.Read → AnswersGiven AnswersLine (R.remaining input.old)
        (R.remaining input.new) (W.contents output.old) (W.contents output.new)) }
    ensures partial { IfErr result (λ e. e ≡ RunFault.Write → AnswersPart AnswersLine (R.remaining input.old)
        (W.contents output.old) (W.contents output.new)) }
{
    let mut answerer = Answerer::new(alloc);
    answer_lines(alloc, &mut answerer, input, output)
}
