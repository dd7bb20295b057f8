ghost use Rattle.std.specs.Prelude.{◌≡◌, ◌≤◌, ◌+◌, IsTrue, IfOk};
ghost use Rattle.gt_disk.specs.Files.{Quiet, HasDiskCause, content};

use crate::{Disk, DiskError, FileId};
use std::alloc::Global;

/// The whole of a file, or None where it is absent. A file that doesn't fit memory is want of memory.
pub fn read_whole<D: Disk>(
    alloc: Global,
    disk: &mut D,
    file: FileId,
) -> Result<Option<Vec<u8>>, DiskError>
    ensures bytes { IsTrue D.tells → IfOk result (λ bytes. content bytes ≡ (D.view disk.old).reads file) }
    ensures quiet { IsTrue D.tells → Quiet (D.view disk.old) (D.view disk.new) }
    ensures later { (D.view disk.old).clock ≤ (D.view disk.new).clock }
    ensures cause { HasDiskCause (D.fault_count disk.old) (D.fault_count disk.new) result }
    ensures counted { D.call_count disk.new ≤ D.call_count disk.old + 2 }
{
    let Some(len) = disk.len(file)? else {
        return Ok(None);
    };
    let mut bytes = vec![in alloc; 0u8; len as usize]?;
    let count = disk.read_at(file, 0, &mut bytes)?;
    bytes.truncate(count);
    Ok(Some(bytes))
}
