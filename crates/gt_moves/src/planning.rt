// What an application moves.
ghost use Rattle.std.specs.Prelude.{◌≡◌, ◌<◌, ◌+◌, ◌^◌, IfOk};
ghost use Rattle.gt_model.specs.Batches.{new_files};
ghost use Rattle.gt_moves.specs.Moves.{planned_moves};

use crate::Moves;
use crate::moving::add_paths;
use gt_apply::paths_of;
use gt_list::{ListOf, NoMemory};
use gt_model::Entry;
use std::alloc::Global;

/// For each record that these entries added, where it stands in the files that an application of them adds, numbered from
/// `next` on. A place past every file's end is want of memory, and so is a record too long for its length.
pub fn planned_moves(alloc: Global, next: u64, entries: &[Entry]) -> Result<Moves, NoMemory>
    requires { next + new_files entries.now < 2 ^ 64 }
    ensures { IfOk result (λ moves. moves ≡ planned_moves next entries.now) }
{
    let paths = paths_of(alloc, entries)?;
    let mut moves = ListOf::new(alloc);
    add_paths(alloc, &mut moves, next, entries, &paths)?;
    Ok(moves)
}
