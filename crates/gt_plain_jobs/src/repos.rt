ghost use Rattle.std.specs.Prelude.{◌≡◌, [], filter, length, map as map_list, IfOk};
ghost use Rattle.std.specs.List.{flat_map};
ghost use Rattle.gt_model.specs.Verdicts.{same_name};
ghost use Rattle.gt_model.specs.Batches.{cut, files_of, repos_at, files_at, paths_of, new_files};
ghost use Rattle.gt_plain_jobs.specs.Files.{new_file};

use crate::batches::{files_of, is_deletion};
use crate::texts::ascending;
use crate::{PlainFile, Text};
use gt_list::{ListOf, NoMemory};
use gt_model::{Entry, EntryList};
use std::alloc::Global;
use std::mem;

fn copy_of(entry: &Entry) -> Result<Entry, NoMemory>
    ensures { IfOk result (λ e. e ≡ entry.now) }
{
    match entry.clone() {
        Ok(entry) => Ok(entry),
        Err(_) => Err(NoMemory),
    }
}

/// The entries of one path, in order.
fn at_path(alloc: Global, entries: &[Entry], path: &Text) -> Result<EntryList, NoMemory>
    ensures { IfOk result (λ list. list ≡ filter (λ e. same_name e.path path.now) entries.now) }
{
    let mut list = ListOf::new(alloc);
    for entry in entries {
        if entry.path.bytes() == path.bytes() {
            list.push(copy_of(entry)?)?;
        }
    }
    Ok(list)
}

/// Entries of one path, cut behind each deletion.
fn cut(alloc: Global, entries: &[Entry]) -> Result<Vec<EntryList>, NoMemory>
    ensures { IfOk result (λ v. v.items ≡ cut [] entries.now) }
{
    let mut repos = Vec::new(alloc);
    let mut first = ListOf::new(alloc);
    for entry in entries {
        first.push(copy_of(entry)?)?;
        if is_deletion(&entry.change) {
            repos.push(mem::replace(&mut first, ListOf::new(alloc)))?;
        }
    }
    repos.push(first)?;
    Ok(repos)
}

/// The repositories that stand at a path in the course of entries, each as its entries.
pub fn repos_at(alloc: Global, path: &Text, entries: &[Entry]) -> Result<Vec<EntryList>, NoMemory>
    ensures { IfOk result (λ v. v.items ≡ repos_at path.now entries.now) }
{
    let list = at_path(alloc, entries, path)?;
    cut(alloc, list.as_slice())
}

fn all_files(alloc: Global, repos: &[EntryList]) -> Result<Vec<PlainFile>, NoMemory>
    ensures { IfOk result (λ v. map_list new_file v.items ≡ flat_map files_of repos.now) }
{
    let mut files = Vec::new(alloc);
    for entries in repos {
        files.append(&mut files_of(alloc, entries.as_slice())?)?;
    }
    Ok(files)
}

/// The new files at a path, in order.
pub fn files_at(alloc: Global, path: &Text, entries: &[Entry]) -> Result<Vec<PlainFile>, NoMemory>
    ensures { IfOk result (λ v. map_list new_file v.items ≡ files_at path.now entries.now) }
{
    let repos = repos_at(alloc, path, entries)?;
    all_files(alloc, &repos)
}

/// The paths of entries, ascending, each once.
pub fn paths_of(alloc: Global, entries: &[Entry]) -> Result<Vec<Text>, NoMemory>
    ensures { IfOk result (λ v. v.items ≡ paths_of entries.now) }
{
    let mut paths = Vec::new(alloc);
    for entry in entries {
        paths.push(Text::of(alloc, entry.path.bytes())?)?;
    }
    ascending(alloc, &paths)
}

fn files_in(alloc: Global, paths: &[Text], entries: &[Entry]) -> Result<Vec<PlainFile>, NoMemory>
    ensures { IfOk result (λ v. map_list new_file v.items ≡ flat_map (λ path. files_at path entries.now) paths.now) }
{
    let mut files = Vec::new(alloc);
    for path in paths {
        files.append(&mut files_at(alloc, path, entries)?)?;
    }
    Ok(files)
}

/// How many new files an application of entries makes.
pub fn new_files(alloc: Global, entries: &[Entry]) -> Result<usize, NoMemory>
    ensures { IfOk result (λ n. n ≡ new_files entries.now) }
{
    let paths = paths_of(alloc, entries)?;
    let files = files_in(alloc, &paths, entries)?;
    Ok(files.len())
}
