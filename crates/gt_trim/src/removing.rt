// How files are removed from a disk.
ghost use Rattle.std.specs.Prelude.{◌≡◌, ◌≤◌, ◌+◌, ◌*◌, length, None, IsTrue, OnOk};
ghost use Rattle.gt_disk.specs.Files.{now, still, HasCause};
ghost use Rattle.gt_disk.specs.Moments.{Since, Runs};
ghost use Rattle.gt_trim.specs.Removing.{AreGone, Going, LeavesOthers, OnlyRemoves, ReadsOthers};

use gt_disk::{Disk, Failed, FileId};

/// Removes a file, and syncs that: after `Ok` it is absent, and so a stop leaves it. After `Failed` it is as it was, absent or
/// has any bytes.
pub fn remove_synced<D: Disk>(disk: &mut D, file: FileId) -> Result<(), Failed>
    ensures gone { IsTrue D.tells → OnOk result (now (D.view disk.new) file ≡ still None) }
    ensures run { IsTrue D.tells → Runs file (Going (now (D.view disk.old) file)) (D.view disk.old) (D.view disk.new) }
    ensures later { (D.view disk.old).clock ≤ (D.view disk.new).clock }
    ensures cause { HasCause (D.fault_count disk.old) (D.fault_count disk.new) result }
    ensures counted { D.call_count disk.new ≤ D.call_count disk.old + 2 }
{
    disk.remove(file)?;
    disk.sync(file)
}

/// Removes files one after the other, and syncs each: after `Ok` all of them are absent, and so a stop leaves them. It ends with
/// the first call that fails: each of them is then as it was, absent or has any bytes.
pub fn remove_all<D: Disk>(disk: &mut D, files: &[FileId]) -> Result<(), Failed>
    ensures gone { IsTrue D.tells → OnOk result (AreGone files.now (now (D.view disk.new))) }
    ensures others { IsTrue D.tells → LeavesOthers files.now (now (D.view disk.old)) (now (D.view disk.new)) }
    ensures reads { IsTrue D.tells → ReadsOthers files.now (D.view disk.old).reads (D.view disk.new).reads }
    // At each moment of the call no other file changes, and each of these is as it was, or is on its way.
    ensures any_moment { IsTrue D.tells → Since (LeavesOthers files.now (now (D.view disk.old))) (D.view disk.old) (D.view disk.new) }
    ensures going { IsTrue D.tells → Since (OnlyRemoves files.now (now (D.view disk.old))) (D.view disk.old) (D.view disk.new) }
    ensures later { (D.view disk.old).clock ≤ (D.view disk.new).clock }
    ensures cause { HasCause (D.fault_count disk.old) (D.fault_count disk.new) result }
    ensures counted { D.call_count disk.new ≤ D.call_count disk.old + 2 * length files.now }
{
    'files: for file in files {
        remove_synced(disk, *file)?;
    }
    Ok(())
}
