ghost use Rattle.std.specs.Prelude.{◌≡◌, ℕ};

use crate::MuteDisk;
use gt_disk::{Disk, Failed, MemDisk};
use gt_outside::{Host, MemHost};

/// The disks of a host in memory, handed out as ones that tell nothing.
#[derive(Drop)]
pub struct MuteHost {
    host: MemHost,
    lengths: u64,
}

impl MuteHost {
    /// A host each of whose disks gives as many lengths of files.
    pub fn new(host: MemHost, lengths: u64) -> MuteHost
        ensures here { (n : ℕ) → ⟦<MuteHost as Host>⟧.is_out result n ≡ ⟦<MemHost as Host>⟧.is_out host n }
    {
        MuteHost { host, lengths }
    }

    /// The host in memory again.
    pub fn into_inner(self) -> MemHost
        ensures here { (n : ℕ) → ⟦<MemHost as Host>⟧.is_out result n ≡ ⟦<MuteHost as Host>⟧.is_out self n }
    {
        self.host
    }
}

impl Host for MuteHost {
    type D = MuteDisk;

    ghost use Rattle.gt_disk.specs.Untold.{untold};

    ghost faults = { λ mute. ⟦<MemHost as Host>⟧.faults mute.host };

    ghost is_out = { λ mute n. ⟦<MemHost as Host>⟧.is_out mute.host n };

    ghost disk_faults = { λ mute n. ⟦<MemHost as Host>⟧.disk_faults mute.host n };

    ghost disk_view = { λ mute n. untold (⟦<MemHost as Host>⟧.disk_view mute.host n).clock };

    fn take(&mut self, number: u8) -> Result<MuteDisk, Failed> {
        match self.host.take(number) {
            Ok(disk) => Ok(MuteDisk {
                disk,
                lengths: self.lengths,
            }),
            Err(Failed) => Err(Failed),
        }
    }

    fn give(&mut self, number: u8, disk: MuteDisk) {
        self.host.give(number, disk.disk);
    }
}
