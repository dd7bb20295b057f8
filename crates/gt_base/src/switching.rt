// The device calls of a switch to the next epoch.
ghost use Rattle.std.specs.Prelude.{◌≡◌, ◌≤◌, ◌+◌, ℕ, IsTrue};
ghost use Rattle.gt_disk.specs.Files.{now};
ghost use Rattle.gt_disk.specs.Moments.{Since};
ghost use Rattle.gt_manifest.specs.Whole.{Fits};
ghost use Rattle.gt_manifest.specs.declared.version.Version.TheVariants.{Second};
ghost use Rattle.gt_base.specs.Switching.{Counts, SwitchMoment, AfterSwitch, HasSwitchCause};

use crate::SwitchError;
use gt_disk::{Disk, DiskError, TURN, append_synced, manifest_file, write_synced};
use gt_manifest::Manifest;
use std::alloc::Global;

/// Writes a manifest and syncs it, and then appends a byte to turn and syncs that.
pub(crate) fn switch_files<D: Disk>(
    alloc: Global,
    disk: &mut D,
    to: &Manifest,
) -> Result<(), SwitchError>
    requires { Fits Second to.now }
    ensures cause { HasSwitchCause (D.fault_count disk.old) (D.fault_count disk.new) result }
    ensures later { (D.view disk.old).clock ≤ (D.view disk.new).clock }
    ensures counted { D.call_count disk.new ≤ D.call_count disk.old + 4 }
    ensures any_moment { IsTrue D.tells → (epoch : ℕ) → to.now.epoch ≡ epoch + 1 → Counts epoch (now (D.view disk.old))
        → Since (SwitchMoment result epoch to.now (now (D.view disk.old))) (D.view disk.old) (D.view disk.new) }
    ensures after { IsTrue D.tells → (epoch : ℕ) → to.now.epoch ≡ epoch + 1 → Counts epoch (now (D.view disk.old))
        → AfterSwitch result epoch to.now (now (D.view disk.old)) (now (D.view disk.new)) }
{
    let Ok(bytes) = to.encode(alloc) else {
        return Err(SwitchError::Memory);
    };
    match write_synced(disk, manifest_file(to.epoch), &bytes) {
        Ok(()) => {}
        Err(DiskError::Failed) => return Err(SwitchError::Untouched),
        Err(DiskError::Memory) => return Err(SwitchError::Memory),
    }
    match append_synced(disk, TURN, &[1]) {
        Ok(()) => Ok(()),
        Err(DiskError::Failed) => Err(SwitchError::Unsure),
        Err(DiskError::Memory) => Err(SwitchError::Memory),
    }
}
