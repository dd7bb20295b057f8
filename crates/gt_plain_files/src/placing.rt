ghost use Rattle.std.specs.Prelude.{◌≡◌, ◌+◌, length, fold, IfOk};
ghost use Rattle.gt_model.specs.Batches.{files_of, files_at, repos_at};
ghost use Rattle.gt_model.specs.NamedFiles.{shelf_at, with_shelf, placed, filed, filed_repos, filed_paths, filed_all};

use crate::PlainFiling;
use crate::filing::{filed, with_shelf};
use crate::shelf::placed;
use gt_list::NoMemory;
use gt_model::{Entry, EntryList};
use gt_plain_jobs::{Text, files_at, files_of, paths_of, repos_at};
use std::alloc::Global;

fn past(number: u64, count: usize) -> Result<u64, NoMemory>
    ensures { IfOk result (λ n. n ≡ number + count) }
{
    match number.checked_add(count as u64) {
        Some(sum) => Ok(sum),
        None => Err(NoMemory),
    }
}

/// The number behind the new files of entries of one repository.
fn past_repo(alloc: Global, number: u64, entries: &[Entry]) -> Result<u64, NoMemory>
    ensures { IfOk result (λ n. n ≡ number + length (files_of entries.now)) }
{
    let files = files_of(alloc, entries)?;
    past(number, files.len())
}

/// The number behind the new files at a path.
fn past_path(alloc: Global, number: u64, path: &Text, entries: &[Entry]) -> Result<u64, NoMemory>
    ensures { IfOk result (λ n. n ≡ number + length (files_at path.now entries.now)) }
{
    let files = files_at(alloc, path, entries)?;
    past(number, files.len())
}

/// The new files of entries of one repository, from this number on.
fn with_placed(
    alloc: Global,
    path: &Text,
    number: u64,
    entries: &[Entry],
    filing: PlainFiling,
) -> Result<PlainFiling, NoMemory>
    ensures { IfOk result (λ f. f ≡ with_shelf filing path.now (placed number (files_of entries.now) (shelf_at filing path.now))) }
{
    let files = files_of(alloc, entries)?;
    let shelf = filing.shelf_at(alloc, path)?;
    let shelf = placed(alloc, number, &files, shelf)?;
    with_shelf(filing, Text::of(alloc, path.bytes())?, shelf)
}

fn filed_each(
    alloc: Global,
    entries: &[Entry],
    filing: PlainFiling,
) -> Result<PlainFiling, NoMemory>
    ensures { IfOk result (λ f. f ≡ fold filed filing entries.now) }
{
    let mut filing = filing;
    for entry in entries {
        filing = filed(alloc, filing, entry)?;
    }
    Ok(filing)
}

fn filed_repo(
    alloc: Global,
    path: &Text,
    number: u64,
    entries: &[Entry],
    filing: PlainFiling,
) -> Result<PlainFiling, NoMemory>
    ensures { IfOk result (λ f. f ≡ fold filed (with_shelf filing path.now (placed number (files_of entries.now) (shelf_at filing path.now))) entries.now) }
{
    let filing = with_placed(alloc, path, number, entries, filing)?;
    filed_each(alloc, entries, filing)
}

/// The repositories of a path one after the other, with new files from this number on.
fn filed_repos(
    alloc: Global,
    path: &Text,
    number: u64,
    repos: &[EntryList],
    filing: PlainFiling,
) -> Result<PlainFiling, NoMemory>
    ensures { IfOk result (λ f. f ≡ filed_repos path.now number repos.now filing) }
{
    let mut filing = filing;
    let mut next = number;
    for entries in repos {
        filing = filed_repo(alloc, path, next, entries.as_slice(), filing)?;
        next = past_repo(alloc, next, entries.as_slice())?;
    }
    Ok(filing)
}

fn filed_path(
    alloc: Global,
    path: &Text,
    number: u64,
    entries: &[Entry],
    filing: PlainFiling,
) -> Result<PlainFiling, NoMemory>
    ensures { IfOk result (λ f. f ≡ filed_repos path.now number (repos_at path.now entries.now) filing) }
{
    let repos = repos_at(alloc, path, entries)?;
    filed_repos(alloc, path, number, &repos, filing)
}

fn filed_paths(
    alloc: Global,
    entries: &[Entry],
    number: u64,
    paths: &[Text],
    filing: PlainFiling,
) -> Result<PlainFiling, NoMemory>
    ensures { IfOk result (λ f. f ≡ filed_paths entries.now number paths.now filing) }
{
    let mut filing = filing;
    let mut next = number;
    for path in paths {
        filing = filed_path(alloc, path, next, entries, filing)?;
        next = past_path(alloc, next, path, entries)?;
    }
    Ok(filing)
}

/// The files after an application of entries, whose new files have the numbers from this one on.
pub fn filed_all(
    alloc: Global,
    number: u64,
    entries: &[Entry],
    filing: PlainFiling,
) -> Result<PlainFiling, NoMemory>
    ensures { IfOk result (λ f. f ≡ filed_all number entries.now filing) }
{
    let paths = paths_of(alloc, entries)?;
    filed_paths(alloc, entries, number, &paths, filing)
}
