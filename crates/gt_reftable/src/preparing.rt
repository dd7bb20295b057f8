ghost use Rattle.std.specs.Prelude.{◌≡◌, ◌+◌, ℕ, List, false, None, IsTrue, IsSome, IfSome, OnOk};
ghost use Rattle.std.specs.BTreeMap as tree;
ghost use Rattle.std.specs.Ordering.{eq_by_cmp};
ghost use Rattle.gt_model.specs.Contents.{key_cmp};
ghost use Rattle.gt_versions.specs.Versions.{ready};
ghost use Rattle.gt_reftable.specs.Tracks.{HasRoom, IsRoomier};
ghost use Rattle.gt_reftable.specs.Table.{RoomHere, Changed, Same, IsUnborn, HasRoomHere};

use crate::repo::RepoRefs;
use gt_list::NoMemory;
use gt_model::{Change, Entry, RefUpdate};
use gt_name::RepoPath;
use std::alloc::Global;
use std::collections::BTreeMap;

/// Takes all the memory of adding an entry behind the front.
pub(crate) fn prepare_entry(
    repos: &mut BTreeMap<RepoPath, RepoRefs>,
    alloc: Global,
    front: u64,
    entry: &Entry,
) -> Result<(), NoMemory>
    ensures same { (path : List ℕ) → Same (tree.get key_cmp repos.old path) (tree.get key_cmp repos.new path) }
    ensures ok { OnOk result (RoomHere (front + 1) entry.now.change (tree.get key_cmp repos.new entry.now.path)) }
{
    match &entry.change {
        Change::Create { .. } => grow_life(repos, &entry.path),
        Change::Delete => grow_life(repos, &entry.path),
        Change::Write { refs, .. } => prepare_write(repos, alloc, &entry.path, refs.as_slice()),
        Change::Link { .. }
        | Change::Repack { .. }
        | Change::Prune { .. }
        | Change::PackRefs { .. }
        | Change::Unlink { .. } => Ok(()),
    }
}

fn grow_life(repos: &mut BTreeMap<RepoPath, RepoRefs>, path: &RepoPath) -> Result<(), NoMemory>
    ensures here { Changed IsRoomier (tree.get key_cmp repos.old path.now) (tree.get key_cmp repos.new path.now) }
    ensures ok { OnOk result (IfSome (tree.get key_cmp repos.new path.now) (λ r. (q : ℕ) → IsTrue (ready q r.lives))) }
    ensures others { (x : List ℕ) → eq_by_cmp key_cmp path.now x ≡ false → tree.get key_cmp repos.new x ≡ tree.get key_cmp repos.old x }
{
    let Some(repo) = repos.get_mut(path) else {
        return Ok(());
    };
    repo.prepare_life()
}

fn prepare_write(
    repos: &mut BTreeMap<RepoPath, RepoRefs>,
    alloc: Global,
    path: &RepoPath,
    updates: &[RefUpdate],
) -> Result<(), NoMemory>
    ensures same { (x : List ℕ) → Same (tree.get key_cmp repos.old x) (tree.get key_cmp repos.new x) }
    ensures ok { OnOk result (HasRoomHere updates.now (tree.get key_cmp repos.new path.now)) }
{
    if repos.contains_key(path) {
        grow_refs(repos, alloc, path, updates)
    } else {
        add_repo(repos, alloc, path, updates)
    }
}

fn grow_refs(
    repos: &mut BTreeMap<RepoPath, RepoRefs>,
    alloc: Global,
    path: &RepoPath,
    updates: &[RefUpdate],
) -> Result<(), NoMemory>
    requires { IsSome (tree.get key_cmp repos.old path.now) }
    ensures here { Changed IsRoomier (tree.get key_cmp repos.old path.now) (tree.get key_cmp repos.new path.now) }
    ensures ok { OnOk result (HasRoomHere updates.now (tree.get key_cmp repos.new path.now)) }
    ensures others { (x : List ℕ) → eq_by_cmp key_cmp path.now x ≡ false → tree.get key_cmp repos.new x ≡ tree.get key_cmp repos.old x }
{
    let Some(repo) = repos.get_mut(path) else {
        return Ok(());
    };
    repo.prepare(alloc, updates)
}

fn add_repo(
    repos: &mut BTreeMap<RepoPath, RepoRefs>,
    alloc: Global,
    path: &RepoPath,
    updates: &[RefUpdate],
) -> Result<(), NoMemory>
    requires { tree.get key_cmp repos.old path.now ≡ None }
    ensures here { IfSome (tree.get key_cmp repos.new path.now) IsUnborn }
    ensures ok { OnOk result (HasRoomHere updates.now (tree.get key_cmp repos.new path.now)) }
    ensures others { (x : List ℕ) → eq_by_cmp key_cmp path.now x ≡ false → tree.get key_cmp repos.new x ≡ tree.get key_cmp repos.old x }
{
    let mut repo = RepoRefs::new(alloc);
    if let Err(error) = repo.prepare(alloc, updates) {
        return Err(error);
    }
    let Ok(key) = path.clone() else {
        return Err(NoMemory);
    };
    match repos.insert(key, repo) {
        Ok(_) => Ok(()),
        Err(_) => Err(NoMemory),
    }
}
