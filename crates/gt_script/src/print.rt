ghost use Rattle.std.specs.Prelude.{◌≡◌, IfOk, IfErr};
ghost use Rattle.gt_script.specs.declared.error.LineError.TheVariants.{Memory};
ghost use Rattle.gt_script.specs.Printed.{printed};

use crate::LineError;
use crate::done::done_line;
use crate::refusals::refusal_line;
use gt_model::Answer;
use std::alloc::Global;

/// The line of an answer: words with one space between each two, and a line feed. Numbers are decimal, names of objects
/// 40 hex digits in lower case, a content is in such digits or `-` where it is empty, and a file is its kind, `-` and its
/// number. The only error is want of memory. Different answers have different lines (`answers_print_differently`).
pub fn print_answer(alloc: Global, answer: &Answer) -> Result<Vec<u8>, LineError>
    ensures ok { IfOk result (λ text. text.items ≡ printed answer.now) }
    ensures err { IfErr result (λ e. e ≡ Memory) }
{
    match answer {
        Ok(done) => done_line(alloc, done),
        Err(refusal) => refusal_line(alloc, refusal),
    }
}
