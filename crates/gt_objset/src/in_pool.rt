// The repositories that have a pool, of those that were given it since the floor.
ghost use Rattle.std.specs.Prelude.{◌≡◌, ℕ, List, filter, find, IfOk};
ghost use Rattle.std.specs.BTreeMap as tree;
ghost use Rattle.std.specs.List.Sorted.{IsStrictlySortedBy};
ghost use Rattle.std.specs.Option.{option_copied};
ghost use Rattle.gt_model.specs.Contents.{key_cmp, is_this};
ghost use Rattle.gt_objset.specs.Places.{pool_in};
ghost use Rattle.gt_objset.specs.Table.{head_in_slot};
ghost use Rattle.gt_objset.specs.Kept.{Covers};

use crate::listing::push_path;
use crate::members::Members;
use crate::repos::Repos;
use gt_list::{ListOf, NoMemory};
use gt_name::{Paths, RepoPath};
use std::alloc::Global;
use std::collections::BTreeSet;

/// The paths whose pool is this one at a position, ascending.
pub fn paths_in_pool(
    repos: &Repos,
    members: &Members,
    alloc: Global,
    at: u64,
    pool: &RepoPath,
) -> Result<Paths, NoMemory>
    requires { Covers (λ w. tree.get key_cmp members.now w) at (λ q. tree.get key_cmp repos.now q) }
    ensures ordered { tree.IsOrdered key_cmp repos.now }
    ensures paths { IfOk result (λ paths. paths ≡ filter (λ q. is_this (pool_in (head_in_slot (tree.get key_cmp repos.now q) at)) pool.now) (tree.keys repos.now)) }
{
    // for the prover
    let _ = repos.len();
    match members.get(pool) {
        None => Ok(ListOf::new(alloc)),
        Some(candidates) => paths_of(repos, candidates, alloc, at, pool),
    }
}

/// The least path whose pool is this one at a position.
pub fn least_in_pool<'a>(
    repos: &'a Repos,
    members: &'a Members,
    at: u64,
    pool: &RepoPath,
) -> Option<&'a RepoPath>
    requires { Covers (λ w. tree.get key_cmp members.now w) at (λ q. tree.get key_cmp repos.now q) }
    ensures ordered { tree.IsOrdered key_cmp repos.now }
    ensures least { option_copied result ≡ find (λ q. is_this (pool_in (head_in_slot (tree.get key_cmp repos.now q) at)) pool.now) (tree.keys repos.now) }
{
    // for the prover
    let _ = repos.len();
    match members.get(pool) {
        None => None,
        Some(candidates) => least_of(repos, candidates, at, pool),
    }
}

fn paths_of(
    repos: &Repos,
    candidates: &BTreeSet<RepoPath>,
    alloc: Global,
    at: u64,
    pool: &RepoPath,
) -> Result<Paths, NoMemory>
    ensures ordered { IsStrictlySortedBy key_cmp candidates.now.keys }
    ensures paths { IfOk result (λ paths. paths ≡ filter (λ q. is_this (pool_in (head_in_slot (tree.get key_cmp repos.now q) at)) pool.now) candidates.now.keys) }
{
    let mut paths = ListOf::new(alloc);
    for path in candidates.iter() {
        if is_in_pool(repos, at, path, pool) {
            if let Err(error) = push_path(&mut paths, path) {
                return Err(error);
            }
        }
    }
    Ok(paths)
}

fn least_of<'a>(
    repos: &Repos,
    candidates: &'a BTreeSet<RepoPath>,
    at: u64,
    pool: &RepoPath,
) -> Option<&'a RepoPath>
    ensures ordered { IsStrictlySortedBy key_cmp candidates.now.keys }
    ensures least { option_copied result ≡ find (λ q. is_this (pool_in (head_in_slot (tree.get key_cmp repos.now q) at)) pool.now) candidates.now.keys }
{
    for path in candidates.iter() {
        if is_in_pool(repos, at, path, pool) {
            return Some(path);
        }
    }
    None
}

fn is_in_pool(repos: &Repos, at: u64, path: &RepoPath, pool: &RepoPath) -> bool
    ensures { result ≡ is_this (pool_in (head_in_slot (tree.get key_cmp repos.now path.now) at)) pool.now }
{
    match repos.get(path) {
        None => false,
        Some(repo) => is_path(repo.pool(at), pool),
    }
}

fn is_path(path: Option<&RepoPath>, other: &RepoPath) -> bool
    ensures { result ≡ is_this (option_copied path.entry) other.now }
{
    match path {
        None => false,
        Some(path) => path == other,
    }
}
