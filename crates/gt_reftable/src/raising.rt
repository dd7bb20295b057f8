ghost use Rattle.std.specs.Prelude.{List, ℕ};
ghost use Rattle.std.specs.BTreeMap as tree;
ghost use Rattle.gt_model.specs.Contents.{key_cmp};
ghost use Rattle.gt_reftable.specs.Raised.{RaisesSlot};

use crate::repo::RepoRefs;
use gt_name::RepoPath;
use std::collections::BTreeMap;

/// Drops of each repository what only positions before `to` need, and each repository of which nothing is left.
pub(crate) fn raise_repos(repos: &mut BTreeMap<RepoPath, RepoRefs>, to: u64)
    ensures { (path : List ℕ) → RaisesSlot to (tree.get key_cmp repos.old path) (tree.get key_cmp repos.new path) }
{
    repos.retain(|_, repo| repo.raise(to));
}
