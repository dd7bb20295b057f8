ghost use Rattle.std.specs.Prelude.{◌≡◌, ℕ, [], ◌∷◌, ◌++◌, Some, map as map_list, OnOk, IfOk};
ghost use Rattle.std.specs.List.{flat_map};
ghost use Rattle.gt_model.specs.NamedFiles.{file, manifest_files, job_file, doubt_files, work_files, turning_files, named_files};
ghost use Rattle.gt_model.specs.Machine.{entries_past, low_water};
ghost use Rattle.gt_plain_machine.specs.States.{as_state};

use crate::positions::first_of;
use crate::{PlainApplying, PlainPin, PlainState, PlainWork};
use gt_disk::FileId;
use gt_list::NoMemory;
use gt_model::{Entry, Job};
use gt_plain_files::{
    PlainFiling, add_entries, add_entry, add_file, add_manifest, add_taken, add_whole, filed_all,
};
use gt_plain_jobs::new_files;
use std::alloc::Global;

/// The kind of a job's file.
fn kind_of(job: Job) -> u8
    ensures { (n : ℕ) → file result n ≡ job_file job n }
{
    match job {
        Job::Repack => 5,
        Job::Prune => 5,
        Job::PackRefs => 6,
        Job::Unlink => 5,
    }
}

fn add_work(files: &mut Vec<FileId>, work: Option<PlainWork>) -> Result<(), NoMemory>
    ensures { OnOk result (files.new.items ≡ files.old.items ++ work_files work) }
{
    match work {
        Some(work) => add_file(files, kind_of(work.job), work.file),
        None => Ok(()),
    }
}

/// The files of live jobs.
fn add_works(files: &mut Vec<FileId>, pins: &[PlainPin]) -> Result<(), NoMemory>
    ensures { OnOk result (files.new.items ≡ files.old.items ++ flat_map (λ p. work_files p.work) pins.now) }
{
    for pin in pins {
        add_work(files, pin.work())?;
    }
    Ok(())
}

fn add_doubt(files: &mut Vec<FileId>, doubt: &Option<Entry>) -> Result<(), NoMemory>
    ensures { OnOk result (files.new.items ≡ files.old.items ++ doubt_files doubt.now) }
{
    match doubt {
        Some(entry) => add_entry(files, entry),
        None => Ok(()),
    }
}

impl PlainState {
    /// The next manifest and what it names, while this application is in doubt.
    fn add_next(
        &self,
        alloc: Global,
        files: &mut Vec<FileId>,
        filing: &PlainFiling,
        applying: PlainApplying,
    ) -> Result<(), NoMemory>
        ensures { OnOk result (files.new.items ≡ files.old.items ++ turning_files (as_state self.now) filing.now (Some applying)) }
    {
        let count = applying.position.saturating_sub(self.applied);
        let entries = first_of(self.entries_past(self.applied), count);
        let number = applying
            .next
            .saturating_sub(new_files(alloc, entries)? as u64);
        let next = filed_all(alloc, number, entries, filing.copy(alloc)?)?;
        let Some(epoch) = self.epoch.checked_add(1) else {
            return Err(NoMemory);
        };
        add_manifest(alloc, files, epoch, &next)
    }

    fn add_turning(
        &self,
        alloc: Global,
        files: &mut Vec<FileId>,
        filing: &PlainFiling,
    ) -> Result<(), NoMemory>
        ensures { OnOk result (files.new.items ≡ files.old.items ++ turning_files (as_state self.now) filing.now (as_state self.now).turning) }
    {
        match self.turning {
            Some(applying) => self.add_next(alloc, files, filing, applying),
            None => Ok(()),
        }
    }

    /// Gate and turn, the manifest and what it names, and the entries past the low water.
    fn sure_files(&self, alloc: Global, filing: &PlainFiling) -> Result<Vec<FileId>, NoMemory>
        ensures { IfOk result (λ v. v.items ≡ file 1 0 ∷ file 2 0 ∷ [] ++ manifest_files (as_state self.now).epoch filing.now ++ map_list (λ e. file 4 e.position) (entries_past (as_state self.now) (low_water (as_state self.now)))) }
    {
        let mut files = Vec::new(alloc);
        add_file(&mut files, 1, 0)?;
        add_file(&mut files, 2, 0)?;
        add_manifest(alloc, &mut files, self.epoch, filing)?;
        add_entries(&mut files, self.entries_past(self.low_water()))?;
        Ok(files)
    }

    /// Which files a partition still needs: gate and turn; the manifest and what it names; the entries past the low water, and
    /// past the applied position what they name; the packs that were taken out past the low water; the files of live jobs; and
    /// what is in doubt.
    pub fn named_files(&self, alloc: Global, filing: &PlainFiling) -> Result<Vec<FileId>, NoMemory>
        ensures { IfOk result (λ v. v.items ≡ named_files (as_state self.now) filing.now) }
    {
        let mut files = self.sure_files(alloc, filing)?;
        add_whole(&mut files, self.entries_past(self.applied))?;
        add_taken(&mut files, self.low_water(), filing.taken())?;
        add_works(&mut files, self.pins.as_slice())?;
        add_doubt(&mut files, &self.doubt)?;
        self.add_turning(alloc, &mut files, filing)?;
        Ok(files)
    }
}
