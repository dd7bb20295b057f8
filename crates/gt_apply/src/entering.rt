// What entries make of the files of repositories.
ghost use Rattle.std.specs.Prelude.{◌≡◌, ◌+◌, ◌<◌, ◌^◌, length, fold, IfOk, OnOk};
ghost use Rattle.std.specs.FinMap as map;
ghost use Rattle.gt_apply.specs.Plan.{changed, rearranged, no_files, placed, begun, entered};
ghost use Rattle.gt_apply.specs.Steps.{seen, files_in};

use crate::copies::copied_path;
use crate::placing::placed;
use crate::rearranging::rearranged;
use crate::repos::is_deletion;
use crate::shelves::Shelves;
use crate::writes::Writes;
use gt_list::{ListOf, NoMemory};
use gt_manifest::RepoFiles;
use gt_model::{Change, Entry};
use gt_name::RepoPath;
use std::alloc::Global;

fn no_files(alloc: Global, path: &RepoPath, is_pool: bool) -> Result<RepoFiles, NoMemory>
    ensures { IfOk result (λ r. r ≡ no_files path.now is_pool) }
{
    let path = copied_path(path)?;
    Ok(RepoFiles {
        path,
        is_pool,
        pool: None,
        packs: ListOf::new(alloc),
        packed: 0,
        loose: ListOf::new(alloc),
        repacked: 0,
        refs_packed: 0,
    })
}

fn create(
    alloc: Global,
    shelves: &mut Shelves,
    path: &RepoPath,
    is_pool: bool,
) -> Result<(), NoMemory>
    ensures { OnOk result (shelves.new ≡ map.insert shelves.old path.now (no_files path.now is_pool)) }
{
    let repo = no_files(alloc, path, is_pool)?;
    let path = copied_path(path)?;
    shelves.put(path, repo)
}

/// Adds the repository that the first of its entries creates, if that is a creation.
pub(crate) fn begin(alloc: Global, shelves: &mut Shelves, own: &[&Entry]) -> Result<(), NoMemory>
    ensures { OnOk result (shelves.new ≡ begun (seen own.now) shelves.old) }
{
    let Some(entry) = own.first() else {
        return Ok(());
    };
    match &entry.change {
        Change::Create { pool } => create(alloc, shelves, &entry.path, *pool),
        Change::Delete => Ok(()),
        Change::Link { .. } => Ok(()),
        Change::Write { .. } => Ok(()),
        Change::Repack { .. } => Ok(()),
        Change::Prune { .. } => Ok(()),
        Change::PackRefs { .. } => Ok(()),
        Change::Unlink { .. } => Ok(()),
    }
}

/// Puts new files from this number on into the lists of the repository at a path, if one is there.
pub(crate) fn place(
    alloc: Global,
    shelves: &mut Shelves,
    path: &RepoPath,
    number: u64,
    writes: &Writes,
) -> Result<(), NoMemory>
    requires { number + length (files_in writes.now) < 2 ^ 64 }
    ensures { OnOk result (shelves.new ≡ changed shelves.old path.now (placed number (files_in writes.now))) }
{
    let Some(repo) = shelves.take(path) else {
        return Ok(());
    };
    let repo = placed(alloc, repo, number, writes)?;
    let path = copied_path(path)?;
    shelves.put(path, repo)
}

fn rearrange(alloc: Global, shelves: &mut Shelves, entry: &Entry) -> Result<(), NoMemory>
    ensures { OnOk result (shelves.new ≡ changed shelves.old entry.now.path (rearranged entry.now.position entry.now.change)) }
{
    let Some(repo) = shelves.take(&entry.path) else {
        return Ok(());
    };
    let repo = rearranged(alloc, repo, entry.position, &entry.change)?;
    let path = copied_path(&entry.path)?;
    shelves.put(path, repo)
}

fn enter(alloc: Global, shelves: &mut Shelves, entry: &Entry) -> Result<(), NoMemory>
    ensures { OnOk result (shelves.new ≡ entered shelves.old entry.now) }
{
    if is_deletion(&entry.change) {
        let _ = shelves.take(&entry.path);
        return Ok(());
    }
    rearrange(alloc, shelves, entry)
}

/// Makes the changes of entries in order. Those that only write have their files placed already.
pub(crate) fn enter_all(
    alloc: Global,
    shelves: &mut Shelves,
    own: &[&Entry],
) -> Result<(), NoMemory>
    ensures { OnOk result (shelves.new ≡ fold entered shelves.old (seen own.now)) }
{
    for entry in own {
        enter(alloc, shelves, entry)?;
    }
    Ok(())
}
