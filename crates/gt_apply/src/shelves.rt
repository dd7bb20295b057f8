ghost use Rattle.std.specs.Prelude.{◌≡◌, map as map_list, IfOk, OnOk};
ghost use Rattle.std.specs.FinMap as map;
ghost use Rattle.std.specs.BTreeMap.{IsOrdered};
ghost use Rattle.gt_model.specs.Contents.{key_cmp};
ghost use Rattle.gt_apply.specs.Plan.{shelves_of, repos_of};

use crate::copies::{copied_path, copied_repos};
use gt_list::{ListOf, NoMemory};
use gt_manifest::{RepoFiles, RepoList};
use gt_name::RepoPath;
use std::alloc::Global;
use std::collections::BTreeMap;
use std::marker::Model;

/// The files of each repository, by path.
#[derive(Drop)]
pub(crate) struct Shelves {
    tree: BTreeMap<RepoPath, RepoFiles>,
}

impl Model for Shelves {
    ghost use Rattle.std.specs.FinMap as map;
    ghost use Rattle.std.specs.FinMap.{FinMap};
    ghost use Rattle.gt_model.specs.Contents.{key_cmp};
    ghost use Rattle.gt_manifest.specs.declared.manifest.RepoFiles.{RepoFiles};
    ghost use Rattle.gt_apply.specs.Seen.{shelves_code};

    ghost Value = { FinMap key_cmp RepoFiles };

    ghost coded = { shelves_code };

    ghost view = { λ s. map.from_entries s.tree.entries };
}

impl Shelves {
    /// No repository.
    fn new(alloc: Global) -> Shelves
        ensures { result ≡ map.empty }
    {
        Shelves {
            tree: BTreeMap::new(alloc),
        }
    }

    /// Copies of these. Of those of one path it has the first.
    pub(crate) fn of(alloc: Global, repos: &[RepoFiles]) -> Result<Shelves, NoMemory>
        ensures { IfOk result (λ s. s ≡ shelves_of repos.now) }
    {
        let mut left = copied_repos(alloc, repos)?;
        let mut shelves = Shelves::new(alloc);
        while let Some(repo) = left.pop() {
            let path = copied_path(&repo.path)?;
            shelves.put(path, repo)?;
        }
        Ok(shelves)
    }

    /// Takes the files at a path out.
    pub(crate) fn take(&mut self, path: &RepoPath) -> Option<RepoFiles>
        ensures taken { result ≡ map.get self.old path.now }
        ensures left { self.new ≡ map.remove self.old path.now }
    {
        self.tree.remove(path)
    }

    /// Sets the files at a path.
    pub(crate) fn put(&mut self, path: RepoPath, repo: RepoFiles) -> Result<(), NoMemory>
        ensures { OnOk result (self.new ≡ map.insert self.old path repo) }
    {
        self.tree.insert(path, repo)?;
        Ok(())
    }

    /// All of them, ascending by path.
    pub(crate) fn into_list(self, alloc: Global) -> Result<RepoList, NoMemory>
        ensures { IfOk result (λ list. list ≡ repos_of self) }
    {
        list_of(alloc, self.tree)
    }
}

fn list_of(alloc: Global, tree: BTreeMap<RepoPath, RepoFiles>) -> Result<RepoList, NoMemory>
    ensures list { IfOk result (λ list. list ≡ map_list (λ e. e.1) tree.entries) }
    ensures ordered { IsOrdered key_cmp tree }
{
    let items = tree.into_values().collect(alloc)?;
    Ok(ListOf::from_vec(items))
}
