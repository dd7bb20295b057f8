ghost use Rattle.std.specs.Prelude.{◌≡◌, ◌+◌, ◌<◌, ◌^◌, ℕ, List, false, IsTrue, IfSome};
ghost use Rattle.std.specs.BTreeMap as tree;
ghost use Rattle.std.specs.Ordering.{eq_by_cmp};
ghost use Rattle.gt_model.specs.Contents.{key_cmp};
ghost use Rattle.gt_versions.specs.Versions.{ready, IsUpTo};
ghost use Rattle.gt_reftable.specs.Tracks.{PutsLife, Moves, HasRoom, IsTrackUpTo, step_updates};
ghost use Rattle.gt_reftable.specs.Table.{IsSlotUpTo, RoomHere, Changed, Steps, step_entry};

use crate::repo::RepoRefs;
use gt_model::{Change, Entry, RefUpdate};
use gt_name::RepoPath;
use std::collections::BTreeMap;

/// Adds an entry at the position behind the front, in room that was taken before.
pub(crate) fn add_next(
    repos: &mut BTreeMap<RepoPath, RepoRefs>,
    front: u64,
    position: u64,
    entry: &Entry,
)
    requires next { position ≡ front + 1 }
    requires newest { (path : List ℕ) → IsSlotUpTo front (tree.get key_cmp repos.old path) }
    requires room { RoomHere (front + 1) entry.now.change (tree.get key_cmp repos.old entry.now.path) }
    ensures { (path : List ℕ) → Steps front (step_entry entry.now path) (tree.get key_cmp repos.old path) (tree.get key_cmp repos.new path) }
{
    add_entry(repos, front, entry);
}

fn add_entry(repos: &mut BTreeMap<RepoPath, RepoRefs>, front: u64, entry: &Entry)
    requires fits { front + 1 < 2 ^ 64 }
    requires newest { (path : List ℕ) → IsSlotUpTo front (tree.get key_cmp repos.old path) }
    requires room { RoomHere (front + 1) entry.now.change (tree.get key_cmp repos.old entry.now.path) }
    ensures { (path : List ℕ) → Steps front (step_entry entry.now path) (tree.get key_cmp repos.old path) (tree.get key_cmp repos.new path) }
{
    let position = front + 1;
    match &entry.change {
        Change::Create { .. } => put_life(repos, position, &entry.path, true),
        Change::Delete => put_life(repos, position, &entry.path, false),
        Change::Write { refs, .. } => write(repos, position, &entry.path, refs.as_slice()),
        Change::Link { .. } => {}
        Change::Repack { .. } => {}
        Change::Prune { .. } => {}
        Change::PackRefs { .. } => {}
        Change::Unlink { .. } => {}
    }
}

fn put_life(repos: &mut BTreeMap<RepoPath, RepoRefs>, position: u64, path: &RepoPath, there: bool)
    requires after { IfSome (tree.get key_cmp repos.old path.now) (λ r. IsUpTo position r.lives.0) }
    requires room { IfSome (tree.get key_cmp repos.old path.now) (λ r. IsTrue (ready position r.lives)) }
    ensures here { Changed (PutsLife position there) (tree.get key_cmp repos.old path.now) (tree.get key_cmp repos.new path.now) }
    ensures others { (x : List ℕ) → eq_by_cmp key_cmp path.now x ≡ false → tree.get key_cmp repos.new x ≡ tree.get key_cmp repos.old x }
{
    let Some(repo) = repos.get_mut(path) else {
        return;
    };
    repo.put_life(position, there);
}

fn write(
    repos: &mut BTreeMap<RepoPath, RepoRefs>,
    position: u64,
    path: &RepoPath,
    updates: &[RefUpdate],
)
    requires after { IfSome (tree.get key_cmp repos.old path.now) (IsTrackUpTo position) }
    requires room { IfSome (tree.get key_cmp repos.old path.now) (λ r. HasRoom position r updates.now) }
    ensures here { Changed (Moves position (step_updates updates.now)) (tree.get key_cmp repos.old path.now) (tree.get key_cmp repos.new path.now) }
    ensures others { (x : List ℕ) → eq_by_cmp key_cmp path.now x ≡ false → tree.get key_cmp repos.new x ≡ tree.get key_cmp repos.old x }
{
    let Some(repo) = repos.get_mut(path) else {
        return;
    };
    repo.write(position, updates);
}
