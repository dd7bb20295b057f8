// A content at the floor, put in piece by piece.
ghost use Rattle.std.specs.Prelude.{◌≡◌, ℕ, List, Option, false, None, Some, IsSome, IfSome, IfOk, OnOk, OnErr};
ghost use Rattle.std.specs.BTreeMap as tree;
ghost use Rattle.std.specs.Option.{option_copied};
ghost use Rattle.std.specs.Ordering.{eq_by_cmp};
ghost use Rattle.gt_model.specs.Contents.{key_cmp};
ghost use Rattle.gt_objset.specs.Table.{IsSlotUpTo, SameSlot};
ghost use Rattle.gt_objset.specs.Seeds.{IsSeeded, SeedsPuts};

use crate::Place;
use crate::head::HeadChange;
use crate::repo::RepoObjects;
use crate::repos::{Repos, put_repo, reserve_repo};
use gt_list::NoMemory;
use gt_name::{Name, RepoPath};
use std::alloc::Global;

/// Puts a repository at the floor, in place of one that is there.
pub fn seed_repo(
    repos: &mut Repos,
    alloc: Global,
    floor: u64,
    path: &RepoPath,
    is_pool: bool,
    pool: Option<&RepoPath>,
) -> Result<(), NoMemory>
    ensures some { OnOk result (IsSome (tree.get key_cmp repos.new path.now)) }
    ensures here { OnOk result (IfSome (tree.get key_cmp repos.new path.now) (IsSeeded floor (record { is_pool = is_pool; pool = option_copied pool.entry }))) }
    ensures others { OnOk result ((x : List ℕ) → eq_by_cmp key_cmp path.now x ≡ false → tree.get key_cmp repos.new x ≡ tree.get key_cmp repos.old x) }
    ensures err { OnErr result ((x : List ℕ) → tree.get key_cmp repos.new x ≡ tree.get key_cmp repos.old x) }
{
    let Ok(repo) = seeded(alloc, floor, is_pool, pool) else {
        return Err(NoMemory);
    };
    let Ok(key) = path.clone() else {
        return Err(NoMemory);
    };
    match repos.insert(key, repo) {
        Ok(_) => Ok(()),
        Err(_) => Err(NoMemory),
    }
}

fn seeded(
    alloc: Global,
    floor: u64,
    is_pool: bool,
    pool: Option<&RepoPath>,
) -> Result<RepoObjects, NoMemory>
    ensures { IfOk result (IsSeeded floor (record { is_pool = is_pool; pool = option_copied pool.entry })) }
{
    let head = match HeadChange::seeds(is_pool, pool) {
        Ok(head) => head,
        Err(error) => return Err(error),
    };
    let nothing: [(Name, Option<Place>); 0] = [];
    let mut repo = RepoObjects::new(alloc);
    if let Err(error) = repo.reserve(alloc, &nothing) {
        return Err(error);
    }
    repo.put(floor, head, &nothing);
    Ok(repo)
}

/// Puts own objects of a repository at the floor.
pub fn seed_puts(
    repos: &mut Repos,
    alloc: Global,
    floor: u64,
    path: &RepoPath,
    puts: &[(Name, Option<Place>)],
) -> Result<(), NoMemory>
    requires { (x : List ℕ) → IsSlotUpTo floor (tree.get key_cmp repos.old x) }
    ensures ok { OnOk result ((q : List ℕ) → SeedsPuts floor (eq_by_cmp key_cmp q path.now) puts.now (tree.get key_cmp repos.old q) (tree.get key_cmp repos.new q)) }
    ensures err { OnErr result ((q : List ℕ) → SameSlot (tree.get key_cmp repos.old q) (tree.get key_cmp repos.new q)) }
{
    if let Err(error) = reserve_repo(repos, alloc, path, puts) {
        return Err(error);
    }
    put_repo(repos, floor, path, HeadChange::none(), puts);
    Ok(())
}
