// Which of the known files nothing names.
ghost use Rattle.std.specs.Prelude.{◌≡◌, ◌&&◌, ◌++◌, ◌∷◌, [], if◌then◌else◌, true, not, IfOk, OnOk};
ghost use Rattle.std.specs.List.{IsDistinct};
ghost use Rattle.std.specs.BTreeSet.{Updates, contains};
ghost use Rattle.gt_disk.specs.Calls.{same_file};
ghost use Rattle.gt_disk.specs.Files.{file_cmp};
ghost use Rattle.gt_disk.specs.declared.file_id.FileId.{FileId as File};
ghost use Rattle.gt_trim.specs.Unnamed.{Agrees, is_among, removable_of};

use crate::FileIds;
use gt_disk::FileId;
use gt_list::{ListOf, NoMemory};
use std::alloc::Global;
use std::collections::BTreeSet;

/// The set of these files.
fn set_of(alloc: Global, files: &[FileId]) -> Result<BTreeSet<FileId>, NoMemory>
    ensures { IfOk result (λ set. Agrees set files.now) }
{
    let mut set = BTreeSet::new(alloc);
    'files: for file in files {
        match set.insert(*file) {
            Err(_) => return Err(NoMemory),
            Ok(_) => {}
        }
    }
    Ok(set)
}

/// One more file at the end of the list, unless the set has it. Then the set has it.
fn note(files: &mut FileIds, out: &mut BTreeSet<FileId>, file: FileId) -> Result<(), NoMemory>
    ensures noted { OnOk result (files.new ≡ (if contains file_cmp out.old file then files.old else files.old ++ file ∷ [])) }
    ensures out { OnOk result (Updates file_cmp out.old out.new file true) }
{
    match out.insert(file) {
        Err(_) => Err(NoMemory),
        Ok(false) => Ok(()),
        Ok(true) => {
            files.push(file)?;
            Ok(())
        }
    }
}

/// The known files that aren't named, in the order in which they are known, each once.
pub fn removable(alloc: Global, known: &FileIds, named: &FileIds) -> Result<FileIds, NoMemory>
    ensures value { IfOk result (λ files. files ≡ removable_of known.now named.now) }
    ensures exact { IfOk result (λ files. (f : File) → is_among files f ≡ (is_among known.now f && not (is_among named.now f))) }
    ensures once { IfOk result (λ files. IsDistinct same_file files) }
{
    // those that are left out from here on: the named, and what is in the list already
    let mut out = set_of(alloc, named.as_slice())?;
    let mut files = ListOf::new(alloc);
    'known: for file in known.as_slice() {
        note(&mut files, &mut out, *file)?;
    }
    Ok(files)
}
