// The plan of an application.
ghost use Rattle.std.specs.Prelude.{◌≡◌, ◌<◌, ◌+◌, ◌-◌, ◌^◌, length, IfOk};
ghost use Rattle.gt_model.specs.Batches.{new_files};
ghost use Rattle.gt_apply.specs.Plan.{planned, planned_files};

use crate::FileList;
use crate::filing::{Draft, file_paths};
use crate::repos::paths_of;
use crate::shelves::Shelves;
use gt_list::{ListOf, NoMemory};
use gt_manifest::Manifest;
use gt_model::Entry;
use std::alloc::Global;

/// The manifest after an application of these entries, which are the next ones past the applied position, and the files that it
/// adds, numbered from `next` on.
pub fn plan(
    alloc: Global,
    from: &Manifest,
    next: u64,
    entries: &[Entry],
) -> Result<(Manifest, FileList), NoMemory>
    requires epoch { from.now.epoch < 2 ^ 64 - 1 }
    requires applied { from.now.applied + length entries.now < 2 ^ 64 }
    requires next { next + new_files entries.now < 2 ^ 64 }
    ensures manifest { IfOk result (λ x. x.0 ≡ planned from.now next entries.now) }
    ensures files { IfOk result (λ x. x.1 ≡ planned_files next entries.now) }
{
    let paths = paths_of(alloc, entries)?;
    let draft = Draft {
        shelves: Shelves::of(alloc, from.repos.as_slice())?,
        next,
        files: ListOf::new(alloc),
    };
    let draft = file_paths(alloc, entries, &paths, draft)?;
    let manifest = Manifest {
        epoch: from.epoch + 1,
        applied: from.applied + entries.len() as u64,
        next: draft.next,
        repos: draft.shelves.into_list(alloc)?,
    };
    Ok((manifest, draft.files))
}
