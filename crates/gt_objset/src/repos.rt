// All repositories, by path.
ghost use Rattle.std.specs.Prelude.{◌≡◌, ◌≤◌, ℕ, List, false, None, Some, IsSome, IfSome, OnOk, []};
ghost use Rattle.std.specs.FinMap as map;
ghost use Rattle.std.specs.BTreeMap as tree;
ghost use Rattle.std.specs.Ordering.{eq_by_cmp};
ghost use Rattle.gt_model.specs.Contents.{key_cmp};
ghost use Rattle.gt_objset.specs.Track.{IsTrackUpTo, HasRoom, Puts, IsRoomier, IsUnborn};
ghost use Rattle.gt_objset.specs.Table.{Changed, SameSlot, RoomHere};
ghost use Rattle.gt_objset.specs.Moved.{Moves};

use crate::Place;
use crate::head::HeadChange;
use crate::repo::RepoObjects;
use gt_list::NoMemory;
use gt_name::{Name, RepoPath};
use std::alloc::Global;
use std::collections::BTreeMap;

pub type Repos = BTreeMap<RepoPath, RepoObjects>;

/// Changes a repository from a position on, in room that was taken before.
pub fn put_repo(
    repos: &mut Repos,
    position: u64,
    path: &RepoPath,
    head: HeadChange,
    puts: &[(Name, Option<Place>)],
)
    requires after { IfSome (tree.get key_cmp repos.old path.now) (IsTrackUpTo position) }
    requires room { IfSome (tree.get key_cmp repos.old path.now) (HasRoom position puts.now) }
    ensures here { Changed (Puts position head puts.now) (tree.get key_cmp repos.old path.now) (tree.get key_cmp repos.new path.now) }
    ensures others { (x : List ℕ) → eq_by_cmp key_cmp path.now x ≡ false → tree.get key_cmp repos.new x ≡ tree.get key_cmp repos.old x }
{
    let Some(repo) = repos.get_mut(path) else {
        return;
    };
    repo.put(position, head, puts);
}

/// The record of an own object of a repository stands elsewhere from a position on, where a place of it begins, for as long
/// as it is own.
pub fn repoint_repo(
    repos: &mut Repos,
    floor: u64,
    at: u64,
    path: &RepoPath,
    name: &Name,
    place: Place,
)
    requires { floor ≤ at }
    ensures here { Changed (Moves floor at name.now place) (tree.get key_cmp repos.old path.now) (tree.get key_cmp repos.new path.now) }
    ensures others { (x : List ℕ) → eq_by_cmp key_cmp path.now x ≡ false → tree.get key_cmp repos.new x ≡ tree.get key_cmp repos.old x }
{
    let Some(repo) = repos.get_mut(path) else {
        return;
    };
    repo.repoint(floor, at, name, place);
}

/// Takes room for a further change of a repository, of these objects.
pub fn reserve_repo(
    repos: &mut Repos,
    alloc: Global,
    path: &RepoPath,
    puts: &[(Name, Option<Place>)],
) -> Result<(), NoMemory>
    ensures same { (x : List ℕ) → SameSlot (tree.get key_cmp repos.old x) (tree.get key_cmp repos.new x) }
    ensures ok { OnOk result ((q : ℕ) → RoomHere q puts.now (tree.get key_cmp repos.new path.now)) }
{
    if let Err(error) = have_repo(repos, alloc, path) {
        return Err(error);
    }
    grow_repo(repos, alloc, path, puts)
}

fn have_repo(repos: &mut Repos, alloc: Global, path: &RepoPath) -> Result<(), NoMemory>
    ensures same { (x : List ℕ) → SameSlot (tree.get key_cmp repos.old x) (tree.get key_cmp repos.new x) }
    ensures ok { OnOk result (IsSome (tree.get key_cmp repos.new path.now)) }
{
    if repos.contains_key(path) {
        Ok(())
    } else {
        add_repo(repos, alloc, path)
    }
}

fn add_repo(repos: &mut Repos, alloc: Global, path: &RepoPath) -> Result<(), NoMemory>
    requires { tree.get key_cmp repos.old path.now ≡ None }
    ensures here { IfSome (tree.get key_cmp repos.new path.now) IsUnborn }
    ensures ok { OnOk result (IsSome (tree.get key_cmp repos.new path.now)) }
    ensures others { (x : List ℕ) → eq_by_cmp key_cmp path.now x ≡ false → tree.get key_cmp repos.new x ≡ tree.get key_cmp repos.old x }
{
    let Ok(key) = path.clone() else {
        return Err(NoMemory);
    };
    match repos.insert(key, RepoObjects::new(alloc)) {
        Ok(_) => Ok(()),
        Err(_) => Err(NoMemory),
    }
}

fn grow_repo(
    repos: &mut Repos,
    alloc: Global,
    path: &RepoPath,
    puts: &[(Name, Option<Place>)],
) -> Result<(), NoMemory>
    requires { IsSome (tree.get key_cmp repos.old path.now) }
    ensures here { Changed IsRoomier (tree.get key_cmp repos.old path.now) (tree.get key_cmp repos.new path.now) }
    ensures ok { OnOk result ((q : ℕ) → RoomHere q puts.now (tree.get key_cmp repos.new path.now)) }
    ensures others { (x : List ℕ) → eq_by_cmp key_cmp path.now x ≡ false → tree.get key_cmp repos.new x ≡ tree.get key_cmp repos.old x }
{
    let Some(repo) = repos.get_mut(path) else {
        return Ok(());
    };
    repo.reserve(alloc, puts)
}
