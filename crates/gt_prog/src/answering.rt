//! The answers of lines.
ghost use Rattle.std.specs.Prelude.{◌≡◌, ◌≤◌, ℕ, OnOk, OnErr, IsErrOf};
ghost use Rattle.gt_disk.specs.Files.{Rose};
ghost use Rattle.gt_disk.specs.declared.file_id.FileId.{FileId};
ghost use Rattle.gt_outside.specs.Written.{AppendsAll, AppendsFront};
ghost use Rattle.gt_script.specs.Printed.{printed};

use crate::playing::PlayCause;
use gt_model::Answer;
use gt_outside::{Sink, write_whole};
use gt_script::print_answer;
use std::alloc::Global;

/// Writes what a request is answered. Memory is taken for the whole line before any of it is written, so want of it cuts no line.
pub(crate) fn write_answer<K: Sink>(
    alloc: Global,
    sink: &mut K,
    answer: &Answer,
) -> Result<(), PlayCause>
    ensures whole { OnOk result (AppendsAll (K.written sink.old) (K.written sink.new) (printed answer.now)) }
    ensures front { OnErr result (AppendsFront (K.written sink.old) (K.written sink.new) (printed answer.now)) }
    ensures later { K.faults sink.old ≤ K.faults sink.new }
    ensures write { IsErrOf result PlayCause.Write → Rose (K.faults sink.old) (K.faults sink.new) }
    ensures sure { (IsErrOf result PlayCause.Write → ⊥) → K.faults sink.new ≡ K.faults sink.old }
    ensures memory { IsErrOf result PlayCause.Memory → K.written sink.new ≡ K.written sink.old }
    ensures device { IsErrOf result PlayCause.Device → ⊥ }
    ensures sound { (file : FileId) (at : ℕ) → IsErrOf result (PlayCause.Damaged file at) → ⊥ }
{
    let Ok(text) = print_answer(alloc, answer) else {
        return Err(PlayCause::Memory);
    };
    match write_whole(sink, &text) {
        Ok(()) => Ok(()),
        Err(_) => Err(PlayCause::Write),
    }
}
