// What an entry changes of the own objects of its repository.
ghost use Rattle.std.specs.Prelude.{◌≡◌, ℕ, List, [], IfOk};
ghost use Rattle.std.specs.BTreeMap as tree;
ghost use Rattle.gt_model.specs.Contents.{key_cmp};
ghost use Rattle.gt_model.specs.declared.change.Change.TheVariants.{Unlink};
ghost use Rattle.gt_objset.specs.Places.{placed, gone, added_begin};
ghost use Rattle.gt_objset.specs.Table.{head_in_slot, own_in_slot, IsPlanned, Makes};

use crate::Place;
use crate::repos::Repos;
use crate::spelling::{added_begin, place_of};
use gt_list::{ListOf, NoMemory};
use gt_model::{Added, AddedRecords, Change, Entry, RefUpdates};
use gt_name::{Name, Names, RepoPath};
use std::alloc::Global;

/// Names of own objects, each with its place from now on, or none where it goes.
pub type Puts = ListOf<(Name, Option<Place>)>;

/// What an entry changes of the own objects of its repository. Of two that are said of a name, the last counts.
pub fn puts_of(repos: &Repos, alloc: Global, front: u64, entry: &Entry) -> Result<Puts, NoMemory>
    ensures { IfOk result (IsPlanned entry.now.change entry.now.position entry.now.path (head_in_slot (tree.get key_cmp repos.now entry.now.path) front) (λ p x. own_in_slot (tree.get key_cmp repos.now p) front x)) }
{
    match &entry.change {
        Change::Create { .. } => Ok(ListOf::new(alloc)),
        Change::Delete => Ok(ListOf::new(alloc)),
        Change::Link { .. } => Ok(ListOf::new(alloc)),
        Change::Write {
            refs,
            needed,
            added,
        } => written(alloc, entry.position, &entry.path, refs, needed, added),
        Change::Repack { dropped, .. } => dropped_all(alloc, dropped.as_slice()),
        Change::Prune { dropped, .. } => dropped_all(alloc, dropped.as_slice()),
        Change::PackRefs { .. } => Ok(ListOf::new(alloc)),
        Change::Unlink { .. } => taken(repos, alloc, front, &entry.path),
    }
}

fn written(
    alloc: Global,
    number: u64,
    path: &RepoPath,
    refs: &RefUpdates,
    needed: &Names,
    added: &AddedRecords,
) -> Result<Puts, NoMemory>
    ensures { IfOk result (λ puts. puts ≡ placed number (added_begin path.now refs.now needed.now) added.now) }
{
    match added_begin(path, refs.as_slice(), needed.as_slice()) {
        None => Err(NoMemory),
        Some(begin) => placed_all(alloc, number, begin, added.as_slice()),
    }
}

fn placed_all(alloc: Global, number: u64, begin: u64, added: &[Added]) -> Result<Puts, NoMemory>
    ensures { IfOk result (λ puts. puts ≡ placed number begin added.now) }
{
    let mut puts = ListOf::new(alloc);
    let mut next = begin;
    for item in added {
        let Some((place, end)) = place_of(number, next, &item.whole) else {
            return Err(NoMemory);
        };
        if let Err(error) = puts.push((item.name, Some(place))) {
            return Err(error);
        }
        next = end;
    }
    Ok(puts)
}

fn dropped_all(alloc: Global, dropped: &[Name]) -> Result<Puts, NoMemory>
    ensures { IfOk result (λ puts. puts ≡ gone dropped.now) }
{
    let mut puts = ListOf::new(alloc);
    for name in dropped {
        if let Err(error) = puts.push((*name, None)) {
            return Err(error);
        }
    }
    Ok(puts)
}

/// What a repository takes from its pool.
fn taken(repos: &Repos, alloc: Global, front: u64, path: &RepoPath) -> Result<Puts, NoMemory>
    ensures { IfOk result (λ puts. (file n : ℕ) → Makes (Unlink file) n path.now (head_in_slot (tree.get key_cmp repos.now path.now) front) (λ p x. own_in_slot (tree.get key_cmp repos.now p) front x) puts) }
{
    let Some(repo) = repos.get(path) else {
        return Ok(ListOf::new(alloc));
    };
    let Some(pool_path) = repo.pool(front) else {
        return Ok(ListOf::new(alloc));
    };
    let Some(pool) = repos.get(pool_path) else {
        return Ok(ListOf::new(alloc));
    };
    repo.taken(alloc, front, pool)
}
