use gt_disk::{Disk, DiskError, Failed, FileId, MemDisk};

/// A disk in memory that tells nothing but its clock, as a folder does.
#[derive(Drop)]
pub struct MuteDisk {
    pub disk: MemDisk,
    /// How many more lengths of files it gives. From then on it answers that a file is absent.
    pub lengths: u64,
}

impl Disk for MuteDisk {
    ghost use Rattle.std.specs.Prelude.{false, refl};
    ghost use Rattle.gt_disk.specs.Untold.{untold};

    ghost tells = { false };

    ghost view = { λ mute. untold (⟦<MemDisk as Disk>⟧.view mute.disk).clock };

    ghost fault_count = { λ mute. ⟦<MemDisk as Disk>⟧.fault_count mute.disk };

    ghost shows = { λ _ _. λ _. refl };

    fn tick(&self) -> u64 {
        self.disk.tick()
    }

    fn faults(&self) -> u64 {
        self.disk.faults()
    }

    fn len(&mut self, file: FileId) -> Result<Option<u64>, Failed> {
        if self.lengths == 0 {
            return Ok(None);
        }
        self.lengths -= 1;
        self.disk.len(file)
    }

    fn read_at(&mut self, file: FileId, at: u64, into: &mut [u8]) -> Result<usize, Failed> {
        self.disk.read_at(file, at, into)
    }

    fn write(&mut self, file: FileId, bytes: &[u8]) -> Result<(), DiskError> {
        self.disk.write(file, bytes)
    }

    fn append(&mut self, file: FileId, bytes: &[u8]) -> Result<(), DiskError> {
        self.disk.append(file, bytes)
    }

    fn sync(&mut self, file: FileId) -> Result<(), Failed> {
        self.disk.sync(file)
    }

    fn remove(&mut self, file: FileId) -> Result<(), Failed> {
        self.disk.remove(file)
    }

    fn list(&mut self, after: Option<FileId>) -> Result<Option<FileId>, Failed> {
        self.disk.list(after)
    }
}
