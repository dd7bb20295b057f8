// An application of entries to the base of a disk.
ghost use Rattle.std.specs.Prelude.{◌≡◌, ◌≢◌, ◌≤◌, ◌+◌, Err, IsTrue, None};
ghost use Rattle.gt_apply.specs.Fitting.{IsNext};
ghost use Rattle.gt_apply.specs.Plan.{planned, planned_files};
ghost use Rattle.gt_base.specs.Switching.{Counts, switched, HasSwitchCause};
ghost use Rattle.gt_base.specs.declared.switch_error.SwitchError.{SwitchError as Why};
ghost use Rattle.gt_checkpoint.specs.Advancing.{calls_of, AdvanceMoment, AfterAdvance};
ghost use Rattle.gt_disk.specs.Files.{now};
ghost use Rattle.gt_disk.specs.Moments.{Since};
ghost use Rattle.gt_manifest.specs.Whole.{Fits};
ghost use Rattle.gt_manifest.specs.declared.version.Version.TheVariants.{Second};
ghost use Rattle.gt_model.specs.Contents.{Content};

use crate::files::write_files;
use gt_apply::{is_short, plan, plans_fit};
use gt_base::{Base, SwitchError};
use gt_disk::Disk;
use gt_model::Entry;
use std::alloc::Global;

/// Writes and syncs every file that an application of these entries adds, numbered from `next` on, and then makes its
/// manifest count. The entries are the next ones past the applied position.
///
/// `Untouched`: a device failed before the append to turn began, and the old base counts. `Unsure`: a device failed from
/// then on, the old base counts or the new one, and the base is in doubt. `Memory`: the old base counts.
pub fn advance<D: Disk>(
    alloc: Global,
    disk: &mut D,
    base: &mut Base,
    next: u64,
    entries: &[Entry],
) -> Result<(), SwitchError>
    requires settled { base.old.doubt ≡ None }
    requires next { (c : Content) × IsNext base.old.manifest next entries.now c }
    ensures base { base.new ≡ switched result (planned base.old.manifest next entries.now) base.old }
    ensures fits { result ≢ Err Why.Untouched → result ≢ Err Why.Memory → Fits Second (planned base.old.manifest next entries.now) }
    ensures cause { HasSwitchCause (D.fault_count disk.old) (D.fault_count disk.new) result }
    ensures later { (D.view disk.old).clock ≤ (D.view disk.new).clock }
    ensures counted { D.call_count disk.new ≤ D.call_count disk.old + calls_of (planned_files next entries.now) + 4 }

    // At each moment of the call the old base counts; or the new one or that it is in doubt, and then all of its files last. No
    // other file changes.
    ensures any_moment { IsTrue D.tells → Counts base.old.manifest.epoch (now (D.view disk.old))
        → Since (AdvanceMoment result base.old.manifest.epoch next (planned base.old.manifest next entries.now) (planned_files next entries.now) (now (D.view disk.old))) (D.view disk.old) (D.view disk.new) }
    ensures after { IsTrue D.tells → Counts base.old.manifest.epoch (now (D.view disk.old))
        → AfterAdvance result base.old.manifest.epoch next (planned base.old.manifest next entries.now) (planned_files next entries.now) (now (D.view disk.old)) (now (D.view disk.new)) }
{
    plans_fit();
    let Ok((to, files)) = plan(alloc, base.manifest(), next, entries) else {
        return Err(SwitchError::Memory);
    };
    if !is_short(&to) {
        return Err(SwitchError::Memory);
    }
    write_files(alloc, disk, files.as_slice())?;
    base.switch(alloc, disk, to)
}
