//! The host of a script.
ghost use Rattle.std.specs.Prelude.{◌≡◌, ℕ, false, IfSome};

use gt_disk::{Disk, MemDisk};
use gt_outside::{Host, MemHost};
use std::alloc::Global;

/// The host whose disk 1 is this one, and whose others are empty; its calls fail at these. None where memory runs out.
pub fn host_of(alloc: Global, disk: MemDisk, faults: &[u64]) -> Option<MemHost>
    ensures { IfSome result (λ host. (n : ℕ) → ⟦<MemHost as Host>⟧.is_out host n ≡ false) }
{
    let mut disks = Vec::new(alloc);
    disks.push(MemDisk::new(alloc).ok()?).ok()?;
    disks.push(disk).ok()?;
    for _ in 0..7 {
        disks.push(MemDisk::new(alloc).ok()?).ok()?;
    }
    if disks.len() == 9 {
        MemHost::new(alloc, disks, faults).ok()
    } else {
        None
    }
}

/// Takes disk 1, which may fail once.
pub(crate) fn taken(host: &mut MemHost) -> Option<MemDisk>
    requires { ⟦<MemHost as Host>⟧.is_out host.old 1 ≡ false }
{
    match host.take(1) {
        Ok(disk) => Some(disk),
        Err(_) => host.take(1).ok(),
    }
}

/// The first disk but disk 1 that is out or was changed.
pub(crate) fn other_changed(host: &MemHost) -> Option<u8> {
    for number in 0..9u8 {
        let is_as_made = match host.disk(number) {
            Some(disk) => disk.tick() == 0 && disk.faults() == 0,
            None => false,
        };
        if number != 1 && !is_as_made {
            return Some(number);
        }
    }
    None
}
