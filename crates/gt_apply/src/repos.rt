// The entries of a batch, repository after repository.
ghost use Rattle.std.specs.Prelude.{◌≡◌, ℕ, List, [], map, IfOk};
ghost use Rattle.std.specs.List.{list_any};
ghost use Rattle.std.specs.BTreeSet as set;
ghost use Rattle.std.specs.Ordering.{eq_by_cmp};
ghost use Rattle.gt_model.specs.Contents.{key_cmp};
ghost use Rattle.gt_model.specs.Batches.{is_deletion, repos_at, paths_of};
ghost use Rattle.gt_apply.specs.Steps.{seen};

use crate::copies::copied_path;
use gt_list::{ListOf, NoMemory};
use gt_model::{Change, Entry};
use gt_name::RepoPath;
use std::alloc::Global;
use std::collections::BTreeSet;
use std::mem;

/// The entries of one repository, in order.
pub type Own<'a> = ListOf<&'a Entry>;

pub(crate) fn is_deletion(change: &Change) -> bool
    ensures { result ≡ is_deletion change.now }
{
    match change {
        Change::Delete => true,
        Change::Create { .. } => false,
        Change::Link { .. } => false,
        Change::Write { .. } => false,
        Change::Repack { .. } => false,
        Change::Prune { .. } => false,
        Change::PackRefs { .. } => false,
        Change::Unlink { .. } => false,
    }
}

/// The repositories that stand at a path in the course of entries, each as its entries: what is created behind a deletion is
/// another one. A batch has few entries, so all of them are gone through for each path.
pub fn repos_at<'a>(
    alloc: Global,
    path: &RepoPath,
    entries: &'a [Entry],
) -> Result<Vec<Own<'a>>, NoMemory>
    ensures { IfOk result (λ v. map seen v.items ≡ repos_at path.now entries.now) }
{
    let mut repos = Vec::new(alloc);
    let mut own = ListOf::new(alloc);
    for entry in entries {
        if entry.path.bytes() == path.bytes() {
            own.push(entry)?;
            if is_deletion(&entry.change) {
                repos.push(mem::replace(&mut own, ListOf::new(alloc)))?;
            }
        }
    }
    repos.push(own)?;
    Ok(repos)
}

fn path_set(alloc: Global, entries: &[Entry]) -> Result<BTreeSet<RepoPath>, NoMemory>
    ensures { IfOk result (λ s. (q : List ℕ) → set.contains key_cmp s q ≡ list_any (eq_by_cmp key_cmp q) (map (λ e. e.path) entries.now)) }
{
    let mut paths = BTreeSet::new(alloc);
    for entry in entries {
        let path = copied_path(&entry.path)?;
        paths.insert(path)?;
    }
    Ok(paths)
}

fn listed(alloc: Global, paths: BTreeSet<RepoPath>) -> Result<Vec<RepoPath>, NoMemory>
    ensures list { IfOk result (λ v. v.items ≡ paths.keys) }
    ensures ordered { set.IsOrdered key_cmp paths }
{
    let list = paths.into_iter().collect(alloc)?;
    Ok(list)
}

/// The paths of entries, ascending, each once.
pub fn paths_of(alloc: Global, entries: &[Entry]) -> Result<Vec<RepoPath>, NoMemory>
    ensures { IfOk result (λ v. v.items ≡ paths_of entries.now) }
{
    let paths = path_set(alloc, entries)?;
    listed(alloc, paths)
}
