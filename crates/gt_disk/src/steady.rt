// A disk in memory that never fails.
ghost use Rattle.std.specs.Prelude.{◌≡◌, ◌≤◌, None, IfOk, IfErr};
ghost use Rattle.gt_disk.specs.declared.file_id.FileId.{FileId};

use crate::contents::{copy_from, next_file};
use crate::records::Records;
use crate::{Disk, DiskError, Failed, FileId, Stop};
use gt_list::NoMemory;
use std::alloc::Global;

/// A disk in memory that tells what a read shows and what a stop leaves. None of its calls fails but for memory.
#[derive(Drop)]
pub struct SteadyDisk {
    records: Records,
}

impl SteadyDisk {
    ghost use Rattle.gt_disk.specs.Files.{IsImage, now, still};
    ghost use Rattle.gt_disk.specs.Memory.{steady_view, steady_cell};
    ghost use Rattle.gt_disk.specs.Stopped.{chosen};

    /// A disk without files.
    pub fn new(alloc: Global) -> Result<SteadyDisk, NoMemory>
        ensures reads { IfOk result (λ d. (f : FileId) → (steady_view d).reads f ≡ None) }
        ensures still { IfOk result (λ d. (f : FileId) → now (steady_view d) f ≡ still None) }
        ensures clock { IfOk result (λ d. (steady_view d).clock ≡ 0) }
    {
        Ok(SteadyDisk {
            records: Records::new(alloc),
        })
    }

    /// A disk as a stop at this moment may leave this one: its files are the image that the choice names.
    /// Each of them lasts, and its clock begins anew.
    pub fn stopped(&self, alloc: Global, tick: u64, choice: Stop) -> Result<SteadyDisk, DiskError>
        requires { tick ≤ (steady_view self.now).clock }
        ensures chosen { IfOk result (λ d. (f : FileId) → (steady_view d).reads f ≡ chosen choice (steady_cell self.now tick f)) }
        ensures image { IfOk result (λ d. IsImage ((steady_view self.now).at tick) (steady_view d).reads) }
        ensures still { IfOk result (λ d. (f : FileId) → now (steady_view d) f ≡ still ((steady_view d).reads f)) }
        ensures clock { IfOk result (λ d. (steady_view d).clock ≡ 0) }
        ensures memory { IfErr result (λ e. e ≡ DiskError.Memory) }
    {
        Ok(SteadyDisk {
            records: self.records.stopped(alloc, tick as usize, choice)?,
        })
    }
}

impl Disk for SteadyDisk {
    ghost use Rattle.std.specs.Prelude.{true, ℕ};
    ghost use Rattle.gt_disk.specs.Memory.{steady_view};
    ghost use Rattle.gt_disk.specs.Shows.{shows_calls};

    ghost tells = { true };

    ghost view = { steady_view };

    ghost fault_count = { λ d. 0 };

    ghost shows = { λ d _. shows_calls d.records.start d.records.calls.items };

    fn tick(&self) -> u64 {
        self.records.calls.len() as u64
    }

    fn faults(&self) -> u64 {
        0
    }

    fn len(&mut self, file: FileId) -> Result<Option<u64>, Failed> {
        match self.records.files.get(&file) {
            Some(bytes) => Ok(Some(bytes.len() as u64)),
            None => Ok(None),
        }
    }

    fn read_at(&mut self, file: FileId, at: u64, into: &mut [u8]) -> Result<usize, Failed> {
        match self.records.files.get(&file) {
            Some(bytes) => Ok(copy_from(bytes, at, into)),
            None => Ok(0),
        }
    }

    fn write(&mut self, file: FileId, bytes: &[u8]) -> Result<(), DiskError> {
        Ok(self.records.write(file, bytes)?)
    }

    fn append(&mut self, file: FileId, bytes: &[u8]) -> Result<(), DiskError> {
        Ok(self.records.append(file, bytes, bytes.len())?)
    }

    fn sync(&mut self, file: FileId) -> Result<(), Failed> {
        self.records.sync(file);
        Ok(())
    }

    fn remove(&mut self, file: FileId) -> Result<(), Failed> {
        self.records.remove(file);
        Ok(())
    }

    fn list(&mut self, after: Option<FileId>) -> Result<Option<FileId>, Failed> {
        Ok(next_file(&self.records.files, after))
    }
}
