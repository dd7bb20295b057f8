// Two calls that many layers make one after the other.
ghost use Rattle.std.specs.Prelude.{◌≡◌, ◌≤◌, ◌<◌, ◌+◌, ℕ, Bool, List, length, Option, IsTrue, IfOk, OnOk, MatchResult, IsErrOf};
ghost use Rattle.gt_disk.specs.Files.{View, FileState, Content, still, grown, loose, now, Unchanged, HasDiskCause, appended};
ghost use Rattle.gt_disk.specs.Moments.{Runs, AnyState, Growing};

use crate::{Disk, DiskError, FileId};

/// Replaces a file, and syncs it: after `Ok` a stop leaves these bytes. After `Failed` the file is absent or has any bytes, and
/// after `Memory` it is unchanged.
pub fn write_synced<D: Disk>(disk: &mut D, file: FileId, bytes: &[u8]) -> Result<(), DiskError>
    ensures still { IsTrue D.tells → OnOk result (now (D.view disk.new) file ≡ still (Some bytes.now)) }
    ensures memory { IsTrue D.tells → IsErrOf result DiskError.Memory → Unchanged (D.view disk.old) (D.view disk.new) }
    ensures run { IsTrue D.tells → Runs file AnyState (D.view disk.old) (D.view disk.new) }
    ensures later { (D.view disk.old).clock ≤ (D.view disk.new).clock }
    ensures moves { OnOk result ((D.view disk.old).clock < (D.view disk.new).clock) }
    ensures cause { HasDiskCause (D.fault_count disk.old) (D.fault_count disk.new) result }
    ensures counted { D.call_count disk.new ≤ D.call_count disk.old + 2 }
{
    disk.write(file, bytes)?;
    match disk.sync(file) {
        Ok(()) => Ok(()),
        Err(_) => Err(DiskError::Failed),
    }
}

/// Appends to a file, and syncs it: after `Ok` a stop leaves the piece too. After `Failed` the piece may stand there, or any
/// bytes in its place, at most as many; after `Memory` the file is unchanged.
pub fn append_synced<D: Disk>(disk: &mut D, file: FileId, bytes: &[u8]) -> Result<(), DiskError>
    ensures still { IsTrue D.tells → OnOk result ((x : Content) → now (D.view disk.old) file ≡ still x → now (D.view disk.new) file ≡ still (appended x bytes.now)) }
    ensures doubt { IsTrue D.tells → IsErrOf result DiskError.Failed → (x : Content) → now (D.view disk.old) file ≡ still x → now (D.view disk.new) file ≡ grown x (length bytes.now) }
    ensures memory { IsTrue D.tells → IsErrOf result DiskError.Memory → Unchanged (D.view disk.old) (D.view disk.new) }
    ensures run { IsTrue D.tells → (x : Content) → now (D.view disk.old) file ≡ still x → Runs file (Growing x bytes.now) (D.view disk.old) (D.view disk.new) }
    ensures later { (D.view disk.old).clock ≤ (D.view disk.new).clock }
    ensures moves { OnOk result ((D.view disk.old).clock < (D.view disk.new).clock) }
    ensures cause { HasDiskCause (D.fault_count disk.old) (D.fault_count disk.new) result }
    ensures counted { D.call_count disk.new ≤ D.call_count disk.old + 2 }
{
    disk.append(file, bytes)?;
    match disk.sync(file) {
        Ok(()) => Ok(()),
        Err(_) => Err(DiskError::Failed),
    }
}
