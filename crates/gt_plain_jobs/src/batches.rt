ghost use Rattle.std.specs.Prelude.{◌≡◌, [], ◌∷◌, ◌++◌, filter, is_some, map as map_list, length, if◌then◌else◌, IfOk, OnOk};
ghost use Rattle.std.specs.List.{list_any, flat_map};
ghost use Rattle.gt_model.specs.Verdicts.{ascending};
ghost use Rattle.gt_model.specs.Batches.{pack, loose, file_of, next_past, is_deletion, has_records, written, files_of};
ghost use Rattle.gt_plain_jobs.specs.Files.{new_file};

use crate::conflicts::adds_some;
use crate::texts::ascending;
use crate::{PlainFile, Text};
use gt_list::NoMemory;
use gt_model::{Change, Entry, RefUpdate};
use std::alloc::Global;

/// The file of a job's change; 0 where it is none.
fn file_of(change: &Change) -> u64
    ensures { result ≡ file_of change.now }
{
    match change {
        Change::Repack { file, dropped: _ } => *file,
        Change::Prune { file, dropped: _ } => *file,
        Change::PackRefs { file } => *file,
        Change::Unlink { file } => *file,
        Change::Create { .. } => 0,
        Change::Delete => 0,
        Change::Link { .. } => 0,
        Change::Write { .. } => 0,
    }
}

/// The next free number where a log is opened over a manifest with this next one.
pub fn next_past(next: u64, log: &[Entry]) -> u128
    ensures { result ≡ next_past next log.now }
{
    let mut least = u128::from(next);
    for entry in log {
        least = least.max(u128::from(file_of(&entry.change)) + 1);
    }
    least
}

pub(crate) fn is_deletion(change: &Change) -> bool
    ensures { result ≡ is_deletion change.now }
{
    match change {
        Change::Delete => true,
        Change::Create { .. } => false,
        Change::Link { .. } => false,
        Change::Write { .. } => false,
        Change::Repack { .. } => false,
        Change::Prune { .. } => false,
        Change::PackRefs { .. } => false,
        Change::Unlink { .. } => false,
    }
}

fn has_records(change: &Change) -> bool
    ensures { result ≡ has_records change.now }
{
    match change {
        Change::Write {
            refs: _,
            needed: _,
            added,
        } => adds_some(added.as_slice()),
        Change::Create { .. } => false,
        Change::Delete => false,
        Change::Link { .. } => false,
        Change::Repack { .. } => false,
        Change::Prune { .. } => false,
        Change::PackRefs { .. } => false,
        Change::Unlink { .. } => false,
    }
}

/// The references to which updates write.
fn moved(alloc: Global, refs: &[RefUpdate]) -> Result<Vec<Text>, NoMemory>
    ensures { IfOk result (λ v. v.items ≡ map_list (λ u. u.name) (filter (λ u. is_some u.new) refs.now)) }
{
    let mut names = Vec::new(alloc);
    for update in refs {
        if update.new.is_some() {
            names.push(Text::of(alloc, update.name.bytes())?)?;
        }
    }
    Ok(names)
}

/// The references that a change writes.
fn written(alloc: Global, change: &Change) -> Result<Vec<Text>, NoMemory>
    ensures { IfOk result (λ v. v.items ≡ written change.now) }
{
    match change {
        Change::Write {
            refs,
            needed: _,
            added: _,
        } => moved(alloc, refs.as_slice()),
        Change::Create { .. } => Ok(Vec::new(alloc)),
        Change::Delete => Ok(Vec::new(alloc)),
        Change::Link { .. } => Ok(Vec::new(alloc)),
        Change::Repack { .. } => Ok(Vec::new(alloc)),
        Change::Prune { .. } => Ok(Vec::new(alloc)),
        Change::PackRefs { .. } => Ok(Vec::new(alloc)),
        Change::Unlink { .. } => Ok(Vec::new(alloc)),
    }
}

/// What entries write, in order.
fn all_written(alloc: Global, entries: &[Entry]) -> Result<Vec<Text>, NoMemory>
    ensures { IfOk result (λ v. v.items ≡ flat_map (λ e. written e.change) entries.now) }
{
    let mut names = Vec::new(alloc);
    for entry in entries {
        names.append(&mut written(alloc, &entry.change)?)?;
    }
    Ok(names)
}

fn any_has_records(entries: &[Entry]) -> bool
    ensures { result ≡ list_any (λ e. has_records e.change) entries.now }
{
    entries.iter().any(|entry| has_records(&entry.change))
}

/// Adds the file of each reference.
fn add_loose(alloc: Global, files: &mut Vec<PlainFile>, names: &[Text]) -> Result<(), NoMemory>
    ensures { OnOk result (map_list new_file files.new.items ≡ map_list new_file files.old.items ++ map_list loose names.now) }
{
    for name in names {
        files.push(PlainFile::Loose(Text::of(alloc, name.bytes())?))?;
    }
    Ok(())
}

fn pack_of(alloc: Global, has_pack: bool) -> Result<Vec<PlainFile>, NoMemory>
    ensures { IfOk result (λ v. map_list new_file v.items ≡ (if has_pack then pack ∷ [] else [])) }
{
    let mut files = Vec::new(alloc);
    if has_pack {
        files.push(PlainFile::Pack)?;
    }
    Ok(files)
}

/// What entries write to one repository: a pack for all records, then a file for each reference, ascending.
pub fn files_of(alloc: Global, entries: &[Entry]) -> Result<Vec<PlainFile>, NoMemory>
    ensures { IfOk result (λ v. map_list new_file v.items ≡ files_of entries.now) }
{
    let names = all_written(alloc, entries)?;
    let names = ascending(alloc, &names)?;
    let mut files = pack_of(alloc, any_has_records(entries))?;
    add_loose(alloc, &mut files, &names)?;
    Ok(files)
}
