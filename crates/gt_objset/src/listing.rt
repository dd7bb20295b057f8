// Paths of repositories, listed.
ghost use Rattle.std.specs.Prelude.{◌≡◌, is_some, filter, IfOk, OnOk, ◌++◌, ◌∷◌, []};
ghost use Rattle.std.specs.BTreeMap as tree;
ghost use Rattle.gt_model.specs.Contents.{key_cmp};
ghost use Rattle.gt_objset.specs.Table.{head_in_slot};

use crate::repos::Repos;
use gt_list::{ListOf, NoMemory};
use gt_name::{Paths, RepoPath};
use std::alloc::Global;

/// The paths that are there at a position, ascending.
pub fn paths_there(repos: &Repos, alloc: Global, at: u64) -> Result<Paths, NoMemory>
    ensures ordered { tree.IsOrdered key_cmp repos.now }
    ensures paths { IfOk result (λ paths. paths ≡ filter (λ q. is_some (head_in_slot (tree.get key_cmp repos.now q) at)) (tree.keys repos.now)) }
{
    let mut paths = ListOf::new(alloc);
    for path in repos.keys() {
        if is_there(repos, at, path) {
            if let Err(error) = push_path(&mut paths, path) {
                return Err(error);
            }
        }
    }
    Ok(paths)
}

fn is_there(repos: &Repos, at: u64, path: &RepoPath) -> bool
    ensures { result ≡ is_some (head_in_slot (tree.get key_cmp repos.now path.now) at) }
{
    match repos.get(path) {
        None => false,
        Some(repo) => repo.is_there(at),
    }
}

/// Adds a copy of a path at the end.
pub fn push_path(paths: &mut Paths, path: &RepoPath) -> Result<(), NoMemory>
    ensures { OnOk result (paths.new ≡ paths.old ++ path.now ∷ []) }
{
    match path.clone() {
        Ok(path) => paths.push(path),
        Err(_) => Err(NoMemory),
    }
}
