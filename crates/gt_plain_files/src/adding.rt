ghost use Rattle.std.specs.Prelude.{◌≡◌, ◌++◌, nat_lt, filter, map as map_list, OnOk};
ghost use Rattle.std.specs.List.{flat_map};
ghost use Rattle.gt_model.specs.NamedFiles.{file, manifest_files, change_files, entry_files};

use crate::files::{add_file, add_if};
use crate::{PlainFiling, PlainTaken};
use gt_disk::FileId;
use gt_list::NoMemory;
use gt_model::{Change, Entry};
use std::alloc::Global;

/// The manifest of an epoch and what it names.
pub fn add_manifest(
    alloc: Global,
    files: &mut Vec<FileId>,
    epoch: u64,
    filing: &PlainFiling,
) -> Result<(), NoMemory>
    ensures { OnOk result (files.new.items ≡ files.old.items ++ manifest_files epoch filing.now) }
{
    add_if(files, 3, epoch)?;
    filing.shelves().add_files(alloc, files)
}

/// The entries' own files.
pub fn add_entries(files: &mut Vec<FileId>, entries: &[Entry]) -> Result<(), NoMemory>
    ensures { OnOk result (files.new.items ≡ files.old.items ++ map_list (λ e. file 4 e.position) entries.now) }
{
    for entry in entries {
        add_file(files, 4, entry.position)?;
    }
    Ok(())
}

fn add_change(files: &mut Vec<FileId>, change: &Change) -> Result<(), NoMemory>
    ensures { OnOk result (files.new.items ≡ files.old.items ++ change_files change.now) }
{
    match change {
        Change::Repack { file, dropped: _ } => add_file(files, 5, *file),
        Change::Prune { file, dropped: _ } => add_file(files, 5, *file),
        Change::PackRefs { file } => add_file(files, 6, *file),
        Change::Unlink { file } => add_file(files, 5, *file),
        Change::Create { .. } => Ok(()),
        Change::Delete => Ok(()),
        Change::Link { .. } => Ok(()),
        Change::Write { .. } => Ok(()),
    }
}

/// An entry's own file and the one that it names.
pub fn add_entry(files: &mut Vec<FileId>, entry: &Entry) -> Result<(), NoMemory>
    ensures { OnOk result (files.new.items ≡ files.old.items ++ entry_files entry.now) }
{
    add_file(files, 4, entry.position)?;
    add_change(files, &entry.change)
}

/// Entries' own files and those that they name.
pub fn add_whole(files: &mut Vec<FileId>, entries: &[Entry]) -> Result<(), NoMemory>
    ensures { OnOk result (files.new.items ≡ files.old.items ++ flat_map entry_files entries.now) }
{
    for entry in entries {
        add_entry(files, entry)?;
    }
    Ok(())
}

/// The packs that were taken out past the low water.
pub fn add_taken(files: &mut Vec<FileId>, low: u64, taken: &[PlainTaken]) -> Result<(), NoMemory>
    ensures { OnOk result (files.new.items ≡ files.old.items ++ map_list (λ t. file 5 t.number) (filter (λ t. nat_lt low t.position) taken.now)) }
{
    for item in taken {
        if low < item.position() {
            add_file(files, 5, item.number())?;
        }
    }
    Ok(())
}
