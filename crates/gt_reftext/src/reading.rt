ghost use Rattle.std.specs.Prelude.{◌≡◌, [], IfOk, not};
ghost use Rattle.std.specs.List.{AllPass};
ghost use Rattle.gt_reftext.specs.Lines.{is_zero, BeginsWell};
ghost use Rattle.gt_reftext.specs.Packed.{read_from, packed_of, Ascends};
ghost use Rattle.gt_reftext.specs.Answers.{Gives, GivesProgress, OnMemory, IsBegunBy};

use crate::lines::first_line;
use crate::so_far::{PackedSoFar, after_line, nothing, whole};
use crate::{PackedList, RefTextError};
use std::alloc::Global;

/// The references of all lines.
fn read_lines(alloc: Global, text: &[u8]) -> Result<PackedSoFar, RefTextError>
    ensures read { GivesProgress result (read_from ([], None) 1 text.now) }
    ensures begun { IsBegunBy result (BeginsWell text.now) }
    ensures memory { OnMemory result (BeginsWell text.now) }
{
    let mut progress = nothing(alloc);
    let mut rest = text;
    let mut number = 1;
    'lines: while let Some((line, after)) = first_line(rest) {
        progress = after_line(alloc, progress, number, line)?;
        rest = after;
        number += 1;
    }
    if !rest.is_empty() {
        return Err(RefTextError::BadLine { line: number });
    }
    Ok(progress)
}

fn read_list(alloc: Global, bytes: &[u8]) -> Result<PackedList, RefTextError>
    ensures exact { Gives result (packed_of bytes.now) }
    ensures memory { OnMemory result (BeginsWell bytes.now) }
    ensures ascending { IfOk result Ascends }
{
    let progress = read_lines(alloc, bytes)?;
    let list = whole(alloc, progress)?;
    Ok(list)
}

/// Reads a packed file: lines that each end with a line feed. A first line that begins with `#` is passed over, whatever
/// it says. Each other line is `<40 hex> SP <name>`, after which one line `^<40 hex>` may have the peeled name. All hex
/// digits are in lower case. The lines may stand in any order; the list ascends by name. An empty file is the empty list.
///
/// `BadLine` has the first line, counted from 1, that is none of these, has a bad name or a value of 40 zeros, has a name
/// that stands on an earlier line, or is the last one and has no line feed. `Memory` is given only where memory ran
/// out, never before a line with a good name and value.
pub fn read_packed(alloc: Global, bytes: &[u8]) -> Result<PackedList, RefTextError>
    // The list of the lines, or the first bad line.
    ensures exact { Gives result (packed_of bytes.now) }
    // No memory is wanted before a line with a reference.
    ensures memory { OnMemory result (BeginsWell bytes.now) }
    // It may be written.
    ensures ascending { IfOk result Ascends }
    ensures no_zero { IfOk result (AllPass (λ r. not (is_zero r.value))) }
{
    read_list(alloc, bytes)
}
