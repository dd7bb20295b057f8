ghost use Rattle.std.specs.Prelude.{◌≡◌, ℕ, List, false, None, IsSome, OnOk, OnErr};
ghost use Rattle.std.specs.BTreeMap as tree;
ghost use Rattle.std.specs.Ordering.{eq_by_cmp};
ghost use Rattle.gt_model.specs.Contents.{key_cmp};
ghost use Rattle.gt_reftable.specs.Tracks.{IsRoomier};
ghost use Rattle.gt_reftable.specs.Table.{IsSlotUpTo, Changed, Same, SeedsHere, SeedsAt};

use crate::repo::RepoRefs;
use gt_list::NoMemory;
use gt_name::{Name, RefName, RepoPath};
use std::alloc::Global;
use std::collections::BTreeMap;

/// Gives a reference a value at the newest position.
pub(crate) fn seed_ref(
    repos: &mut BTreeMap<RepoPath, RepoRefs>,
    alloc: Global,
    position: u64,
    path: &RepoPath,
    name: &RefName,
    value: Name,
) -> Result<(), NoMemory>
    requires { (x : List ℕ) → IsSlotUpTo position (tree.get key_cmp repos.old x) }
    ensures ok { OnOk result ((x : List ℕ) → SeedsAt (eq_by_cmp key_cmp x path.now) position name.now value (tree.get key_cmp repos.old x) (tree.get key_cmp repos.new x)) }
    ensures err { OnErr result ((x : List ℕ) → Same (tree.get key_cmp repos.old x) (tree.get key_cmp repos.new x)) }
{
    if repos.contains_key(path) {
        seed_known(repos, alloc, position, path, name, value)
    } else {
        seed_new(repos, alloc, position, path, name, value)
    }
}

fn seed_known(
    repos: &mut BTreeMap<RepoPath, RepoRefs>,
    alloc: Global,
    position: u64,
    path: &RepoPath,
    name: &RefName,
    value: Name,
) -> Result<(), NoMemory>
    requires known { IsSome (tree.get key_cmp repos.old path.now) }
    requires newest { IsSlotUpTo position (tree.get key_cmp repos.old path.now) }
    ensures ok { OnOk result (SeedsHere position name.now value (tree.get key_cmp repos.old path.now) (tree.get key_cmp repos.new path.now)) }
    ensures err { OnErr result (Changed IsRoomier (tree.get key_cmp repos.old path.now) (tree.get key_cmp repos.new path.now)) }
    ensures others { (x : List ℕ) → eq_by_cmp key_cmp path.now x ≡ false → tree.get key_cmp repos.new x ≡ tree.get key_cmp repos.old x }
{
    let Some(repo) = repos.get_mut(path) else {
        return Ok(());
    };
    repo.seed(alloc, position, name, value)
}

fn seed_new(
    repos: &mut BTreeMap<RepoPath, RepoRefs>,
    alloc: Global,
    position: u64,
    path: &RepoPath,
    name: &RefName,
    value: Name,
) -> Result<(), NoMemory>
    requires { tree.get key_cmp repos.old path.now ≡ None }
    ensures ok { OnOk result (SeedsHere position name.now value (tree.get key_cmp repos.old path.now) (tree.get key_cmp repos.new path.now)) }
    ensures err { OnErr result (tree.get key_cmp repos.new path.now ≡ tree.get key_cmp repos.old path.now) }
    ensures others { (x : List ℕ) → eq_by_cmp key_cmp path.now x ≡ false → tree.get key_cmp repos.new x ≡ tree.get key_cmp repos.old x }
{
    let mut repo = RepoRefs::new(alloc);
    if let Err(error) = repo.seed(alloc, position, name, value) {
        return Err(error);
    }
    let Ok(key) = path.clone() else {
        return Err(NoMemory);
    };
    match repos.insert(key, repo) {
        Ok(_) => Ok(()),
        Err(_) => Err(NoMemory),
    }
}
