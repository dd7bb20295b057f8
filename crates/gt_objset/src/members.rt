// For each pool the repositories that were given it since the floor.
ghost use Rattle.std.specs.Prelude.{◌≡◌, ℕ, List, true, false, IsSome, OnOk, None, Some};
ghost use Rattle.std.specs.BTreeMap as tree;
ghost use Rattle.std.specs.BTreeSet as set;
ghost use Rattle.std.specs.Option.{option_copied};
ghost use Rattle.std.specs.Ordering.{eq_by_cmp};
ghost use Rattle.gt_model.specs.Contents.{key_cmp};
ghost use Rattle.gt_objset.specs.Members.{has_path, notes, NotesMore};
ghost use Rattle.gt_objset.specs.Raised.{KeepsPaths, KeepsSets, has_paths};

use crate::head::HeadChange;
use crate::repos::Repos;
use gt_list::NoMemory;
use gt_name::RepoPath;
use std::alloc::Global;
use std::collections::{BTreeMap, BTreeSet};

/// For each pool a set that has each repository that had the pool since the floor. A repository may be in it that never had
/// the pool: its entry was prepared and not added.
pub type Members = BTreeMap<RepoPath, BTreeSet<RepoPath>>;

/// Notes that a repository may have this pool, or none.
pub fn note_seed(
    members: &mut Members,
    alloc: Global,
    path: &RepoPath,
    pool: Option<&RepoPath>,
) -> Result<(), NoMemory>
    ensures more { NotesMore (λ w. tree.get key_cmp members.old w) (λ w. tree.get key_cmp members.new w) }
    ensures ok { OnOk result (notes (λ w. tree.get key_cmp members.new w) path.now (Some (option_copied pool.entry)) ≡ true) }
{
    match pool {
        None => Ok(()),
        Some(pool) => add_path(members, alloc, pool, path),
    }
}

/// Notes that a repository may be given what the change says.
pub fn note(
    members: &mut Members,
    alloc: Global,
    path: &RepoPath,
    head: &HeadChange,
) -> Result<(), NoMemory>
    ensures more { NotesMore (λ w. tree.get key_cmp members.old w) (λ w. tree.get key_cmp members.new w) }
    ensures ok { OnOk result (notes (λ w. tree.get key_cmp members.new w) path.now head.now.pool ≡ true) }
{
    match &head.pool {
        Some(Some(pool)) => add_path(members, alloc, pool, path),
        Some(None) => Ok(()),
        None => Ok(()),
    }
}

fn add_path(
    members: &mut Members,
    alloc: Global,
    pool: &RepoPath,
    path: &RepoPath,
) -> Result<(), NoMemory>
    ensures more { (w q : List ℕ) → has_path (tree.get key_cmp members.old w) q ≡ true → has_path (tree.get key_cmp members.new w) q ≡ true }
    ensures ok { OnOk result (has_path (tree.get key_cmp members.new pool.now) path.now ≡ true) }
{
    if let Err(error) = have_set(members, alloc, pool) {
        return Err(error);
    }
    insert_path(members, pool, path)
}

fn have_set(members: &mut Members, alloc: Global, pool: &RepoPath) -> Result<(), NoMemory>
    ensures same { (w q : List ℕ) → has_path (tree.get key_cmp members.new w) q ≡ has_path (tree.get key_cmp members.old w) q }
    ensures ok { OnOk result (IsSome (tree.get key_cmp members.new pool.now)) }
{
    if members.contains_key(pool) {
        Ok(())
    } else {
        add_set(members, alloc, pool)
    }
}

fn add_set(members: &mut Members, alloc: Global, pool: &RepoPath) -> Result<(), NoMemory>
    requires { tree.get key_cmp members.old pool.now ≡ None }
    ensures here { (q : List ℕ) → has_path (tree.get key_cmp members.new pool.now) q ≡ false }
    ensures ok { OnOk result (IsSome (tree.get key_cmp members.new pool.now)) }
    ensures others { (w : List ℕ) → eq_by_cmp key_cmp pool.now w ≡ false → tree.get key_cmp members.new w ≡ tree.get key_cmp members.old w }
{
    let Ok(key) = pool.clone() else {
        return Err(NoMemory);
    };
    match members.insert(key, BTreeSet::new(alloc)) {
        Ok(_) => Ok(()),
        Err(_) => Err(NoMemory),
    }
}

fn insert_path(members: &mut Members, pool: &RepoPath, path: &RepoPath) -> Result<(), NoMemory>
    requires { IsSome (tree.get key_cmp members.old pool.now) }
    ensures here { (q : List ℕ) → has_path (tree.get key_cmp members.old pool.now) q ≡ true → has_path (tree.get key_cmp members.new pool.now) q ≡ true }
    ensures ok { OnOk result (has_path (tree.get key_cmp members.new pool.now) path.now ≡ true) }
    ensures others { (w : List ℕ) → eq_by_cmp key_cmp pool.now w ≡ false → tree.get key_cmp members.new w ≡ tree.get key_cmp members.old w }
{
    let Some(paths) = members.get_mut(pool) else {
        return Ok(());
    };
    insert_copy(paths, path)
}

fn insert_copy(paths: &mut BTreeSet<RepoPath>, path: &RepoPath) -> Result<(), NoMemory>
    ensures more { (q : List ℕ) → set.contains key_cmp paths.old q ≡ true → set.contains key_cmp paths.new q ≡ true }
    ensures ok { OnOk result (set.contains key_cmp paths.new path.now ≡ true) }
{
    let Ok(key) = path.clone() else {
        return Err(NoMemory);
    };
    match paths.insert(key) {
        Ok(_) => Ok(()),
        Err(_) => Err(NoMemory),
    }
}

/// Of each set those stay whose repository is in the table, and of the sets those that have any then.
pub fn keep_members(members: &mut Members, repos: &Repos)
    ensures { KeepsSets (λ x. tree.get key_cmp repos.now x) (λ w. tree.get key_cmp members.old w) (λ w. tree.get key_cmp members.new w) }
{
    members.retain(move |_, paths| keep_paths(paths, repos));
}

fn keep_paths(paths: &mut BTreeSet<RepoPath>, repos: &Repos) -> bool
    ensures kept { KeepsPaths (λ x. tree.get key_cmp repos.now x) paths.old paths.new }
    ensures stays { result ≡ has_paths paths.new }
{
    paths.retain(move |path| repos.contains_key(path));
    !paths.is_empty()
}
