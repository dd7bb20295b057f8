ghost use Rattle.std.specs.Prelude.{◌≡◌, ◌++◌, ◌∷◌, [], ℕ, List, map as map_list, IfOk, OnOk};
ghost use Rattle.std.specs.BTreeMap as tree;
ghost use Rattle.gt_model.specs.Contents.{key_cmp};
ghost use Rattle.gt_reftable.specs.Tracks.{refs_of, IsTrackUpTo};
ghost use Rattle.gt_reftable.specs.Table.{IsSlotUpTo, ref_at, with_path, all_in};

use crate::repo::RepoRefs;
use gt_list::NoMemory;
use gt_model::{RefAt, RefValue, RefsAt};
use gt_name::RepoPath;
use std::alloc::Global;
use std::collections::BTreeMap;

/// Every reference at the newest position, ascending by repository, then by name.
pub(crate) fn list_repos(
    repos: &BTreeMap<RepoPath, RepoRefs>,
    alloc: Global,
    position: u64,
) -> Result<RefsAt, NoMemory>
    requires { (path : List ℕ) → IsSlotUpTo position (tree.get key_cmp repos.now path) }
    ensures ordered { tree.IsOrdered key_cmp repos.now }
    ensures all { IfOk result (λ list. list ≡ all_in position repos.now.entries) }
{
    let mut out = RefsAt::new(alloc);
    for (path, repo) in repos.iter() {
        if let Err(error) = add_repo(&mut out, alloc, position, path, repo) {
            return Err(error);
        }
    }
    Ok(out)
}

/// Adds the references of a repository.
fn add_repo(
    out: &mut RefsAt,
    alloc: Global,
    position: u64,
    path: &RepoPath,
    repo: &RepoRefs,
) -> Result<(), NoMemory>
    requires { IsTrackUpTo position repo.now }
    ensures { OnOk result (out.new ≡ out.old ++ with_path path.now (refs_of repo.now position)) }
{
    match repo.list_newest(alloc, position, &[]) {
        Ok(refs) => add_refs(out, path, refs.as_slice()),
        Err(error) => Err(error),
    }
}

fn add_refs(out: &mut RefsAt, path: &RepoPath, refs: &[RefValue]) -> Result<(), NoMemory>
    ensures { OnOk result (out.new ≡ out.old ++ map_list (ref_at path.now) refs.now) }
{
    for item in refs {
        if let Err(error) = add_ref(out, path, item) {
            return Err(error);
        }
    }
    Ok(())
}

fn add_ref(out: &mut RefsAt, path: &RepoPath, item: &RefValue) -> Result<(), NoMemory>
    ensures { OnOk result (out.new ≡ out.old ++ ref_at path.now item.now ∷ []) }
{
    let Ok(path) = path.clone() else {
        return Err(NoMemory);
    };
    let Ok(name) = item.name.clone() else {
        return Err(NoMemory);
    };
    out.push(RefAt {
        path,
        name,
        value: item.value,
    })
}
