// A disk in memory whose calls fail by a list.
ghost use Rattle.std.specs.Prelude.{◌≡◌, ◌≤◌, ◌+◌, ◌<◌, ◌^◌, ℕ, length, None, IfOk, IfErr, OnOk, OnErr};
ghost use Rattle.std.specs.BTreeMap.{btree_map_len};
ghost use Rattle.gt_disk.specs.declared.file_id.FileId.{FileId};

use crate::contents::{copy_from, front, next_file};
use crate::plan::Plan;
use crate::records::Records;
use crate::{Disk, DiskError, Failed, Fault, FileId, Stop};
use gt_list::NoMemory;
use std::alloc::Global;

/// A disk in memory that tells what a read shows and what a stop leaves. Its calls fail by a list.
#[derive(Drop)]
pub struct MemDisk {
    records: Records,
    plan: Plan,
    // Room for each removal that is to fail.
    ghost room: { btree_map_len plan.faults ≤ records.spare },
}

impl MemDisk {
    ghost use Rattle.gt_disk.specs.Files.{IsImage, now, still};
    ghost use Rattle.gt_disk.specs.Memory.{mem_view, mem_cell, mem_faults, mem_made, planned};
    ghost use Rattle.gt_disk.specs.Plan.{listed};
    ghost use Rattle.gt_disk.specs.Stopped.{chosen};

    /// A disk without files, none of whose calls is to fail.
    pub fn new(alloc: Global) -> Result<MemDisk, NoMemory>
        ensures reads { IfOk result (λ d. (f : FileId) → (mem_view d).reads f ≡ None) }
        ensures still { IfOk result (λ d. (f : FileId) → now (mem_view d) f ≡ still None) }
        ensures clock { IfOk result (λ d. (mem_view d).clock ≡ 0) }
        ensures counts { IfOk result (λ d. (mem_made d ≡ 0) × (mem_faults d ≡ 0)) }
        ensures planned { IfOk result (λ d. (call : ℕ) → planned d call ≡ None) }
    {
        Ok(MemDisk {
            records: Records::new(alloc),
            plan: Plan::new(alloc),
        })
    }

    /// These calls are to fail too. Of two faults for one call the last counts, and one for a call that was made already changes nothing.
    /// It never answers `Failed`, and where memory runs out no call more is to fail.
    pub fn fail(&mut self, faults: &[Fault]) -> Result<(), DiskError>
        ensures planned { OnOk result ((call : ℕ) → planned self.new call ≡ listed faults.now call (planned self.old call)) }
        ensures err { OnErr result ((call : ℕ) → planned self.new call ≡ planned self.old call) }
        ensures same { mem_view self.new ≡ mem_view self.old }
        ensures counts { (mem_made self.new ≡ mem_made self.old) × (mem_faults self.new ≡ mem_faults self.old) }
        ensures memory { IfErr result (λ e. e ≡ DiskError.Memory) }
    {
        self.records.take_spare(faults.len())?;
        self.plan.add(faults)?;
        Ok(())
    }

    /// A disk as a stop at this moment may leave this one: its files are the image that the choice names.
    /// Each of them lasts, no call of it is to fail, and its clock and counts begin anew.
    pub fn stopped(&self, alloc: Global, tick: u64, choice: Stop) -> Result<MemDisk, DiskError>
        requires { tick ≤ (mem_view self.now).clock }
        ensures chosen { IfOk result (λ d. (f : FileId) → (mem_view d).reads f ≡ chosen choice (mem_cell self.now tick f)) }
        ensures image { IfOk result (λ d. IsImage ((mem_view self.now).at tick) (mem_view d).reads) }
        ensures still { IfOk result (λ d. (f : FileId) → now (mem_view d) f ≡ still ((mem_view d).reads f)) }
        ensures clock { IfOk result (λ d. (mem_view d).clock ≡ 0) }
        ensures counts { IfOk result (λ d. (mem_made d ≡ 0) × (mem_faults d ≡ 0)) }
        ensures planned { IfOk result (λ d. (call : ℕ) → planned d call ≡ None) }
        ensures memory { IfErr result (λ e. e ≡ DiskError.Memory) }
    {
        Ok(MemDisk {
            records: self.records.stopped(alloc, tick as usize, choice)?,
            plan: Plan::new(alloc),
        })
    }
}

impl Disk for MemDisk {
    ghost use Rattle.std.specs.Prelude.{true, ℕ, length, Some, take, MatchResult, MatchOption, IfSome};
    ghost use Rattle.gt_disk.specs.Files.{Quiet, ReadGives, Becomes, Unchanged, Synced, Appends, Removes, Touched, HasCause, HasDiskCause, IsNext, IsPast, length_of, loose, grow, now, appended};
    ghost use Rattle.gt_disk.specs.Memory.{mem_view, mem_faults, mem_made, next_fault, IsCounted, FailsAsPlanned, KeepsAsPlanned, LeavesAsPlanned, kept_of};
    ghost use Rattle.gt_disk.specs.Shows.{shows_calls};

    ghost tells = { true };

    ghost view = { mem_view };

    ghost fault_count = { mem_faults };

    ghost call_count = { mem_made };

    ghost shows = { λ d _. shows_calls d.records.start d.records.calls.items };

    fn tick(&self) -> u64 {
        self.records.calls.len() as u64
    }

    fn faults(&self) -> u64 {
        self.plan.failed
    }

    fn len(&mut self, file: FileId) -> Result<Option<u64>, Failed>
        ensures length { IfOk result (λ n. n ≡ length_of ((mem_view self.old).reads file)) }
        ensures moment { Quiet (mem_view self.old) (mem_view self.new) }
        ensures cause { HasCause (mem_faults self.old) (mem_faults self.new) result }
        ensures counted { IsCounted self.old self.new }
        ensures planned { FailsAsPlanned (next_fault self.old) result }
    {
        self.plan.pass()?;
        match self.records.files.get(&file) {
            Some(bytes) => Ok(Some(bytes.len() as u64)),
            None => Ok(None),
        }
    }

    fn read_at(&mut self, file: FileId, at: u64, into: &mut [u8]) -> Result<usize, Failed>
        ensures bound { IfOk result (λ n. n ≤ length into.old) }
        ensures bytes { IfOk result (λ n. ReadGives ((mem_view self.old).reads file) at into.old into.new n) }
        ensures moment { Quiet (mem_view self.old) (mem_view self.new) }
        ensures cause { HasCause (mem_faults self.old) (mem_faults self.new) result }
        ensures counted { IsCounted self.old self.new }
        ensures planned { FailsAsPlanned (next_fault self.old) result }
    {
        self.plan.pass()?;
        match self.records.files.get(&file) {
            Some(bytes) => Ok(copy_from(bytes, at, into)),
            None => Ok(0),
        }
    }

    fn write(&mut self, file: FileId, bytes: &[u8]) -> Result<(), DiskError>
        ensures written { OnOk result ((mem_view self.new).reads file ≡ Some bytes.now) }
        ensures moment { Touched result (Becomes file loose (mem_view self.old) (mem_view self.new)) (Unchanged (mem_view self.old) (mem_view self.new)) }
        ensures cause { HasDiskCause (mem_faults self.old) (mem_faults self.new) result }
        ensures counted { IsCounted self.old self.new }
        ensures planned { KeepsAsPlanned (next_fault self.old) result (λ kept. (mem_view self.new).reads file ≡ Some (kept_of bytes.now kept)) }
    {
        match self.plan.next() {
            None => Ok(self.records.write(file, bytes)?),
            Some(kept) => {
                self.records.write(file, &bytes[..front(bytes, kept)])?;
                self.plan.count_failure();
                Err(DiskError::Failed)
            }
        }
    }

    fn append(&mut self, file: FileId, bytes: &[u8]) -> Result<(), DiskError>
        ensures appended { Appends bytes.now result ((mem_view self.old).reads file) ((mem_view self.new).reads file) }
        ensures moment { Touched result (Becomes file (grow (length bytes.now) (now (mem_view self.old) file)) (mem_view self.old) (mem_view self.new)) (Unchanged (mem_view self.old) (mem_view self.new)) }
        ensures cause { HasDiskCause (mem_faults self.old) (mem_faults self.new) result }
        ensures counted { IsCounted self.old self.new }
        ensures planned { KeepsAsPlanned (next_fault self.old) result (λ kept. (mem_view self.new).reads file ≡ appended ((mem_view self.old).reads file) (kept_of bytes.now kept)) }
    {
        match self.plan.next() {
            None => Ok(self.records.append(file, bytes, bytes.len())?),
            Some(kept) => {
                self.records.append(file, bytes, front(bytes, kept))?;
                self.plan.count_failure();
                Err(DiskError::Failed)
            }
        }
    }

    fn sync(&mut self, file: FileId) -> Result<(), Failed>
        ensures moment { MatchResult result (λ _. Synced file (mem_view self.old) (mem_view self.new)) (λ _. Unchanged (mem_view self.old) (mem_view self.new)) }
        ensures cause { HasCause (mem_faults self.old) (mem_faults self.new) result }
        ensures counted { IsCounted self.old self.new }
        ensures planned { FailsAsPlanned (next_fault self.old) result }
    {
        self.plan.pass()?;
        self.records.sync(file);
        Ok(())
    }

    fn remove(&mut self, file: FileId) -> Result<(), Failed>
        ensures removed { Removes result ((mem_view self.old).reads file) ((mem_view self.new).reads file) }
        ensures moment { MatchOption ((mem_view self.old).reads file) (Unchanged (mem_view self.old) (mem_view self.new)) (λ _. Becomes file loose (mem_view self.old) (mem_view self.new)) }
        ensures cause { HasCause (mem_faults self.old) (mem_faults self.new) result }
        ensures counted { IsCounted self.old self.new }
        ensures planned { FailsAsPlanned (next_fault self.old) result }
        ensures kept { IfSome (next_fault self.old) (LeavesAsPlanned ((mem_view self.old).reads file) ((mem_view self.new).reads file)) }
    {
        match self.plan.next() {
            None => {
                self.records.remove(file);
                Ok(())
            }
            Some(kept) => {
                self.plan.count_failure();
                if kept == 0 {
                    self.records.leave(file);
                } else {
                    self.records.remove(file);
                }
                Err(Failed)
            }
        }
    }

    fn list(&mut self, after: Option<FileId>) -> Result<Option<FileId>, Failed>
        ensures order { IfOk result (λ next. IfSome next (IsPast after)) }
        ensures next { IfOk result (λ next. IsNext (mem_view self.old).reads after next) }
        ensures moment { Quiet (mem_view self.old) (mem_view self.new) }
        ensures cause { HasCause (mem_faults self.old) (mem_faults self.new) result }
        ensures counted { IsCounted self.old self.new }
        ensures planned { FailsAsPlanned (next_fault self.old) result }
    {
        self.plan.pass()?;
        Ok(next_file(&self.records.files, after))
    }
}
