ghost use Rattle.std.specs.Prelude.{◌≡◌, find, map as map_list, IfOk, OnOk, OnErr};
ghost use Rattle.std.specs.Option.{option_copied, option_map};
ghost use Rattle.std.specs.BTreeMap.{IsOrdered};
ghost use Rattle.std.specs.FinMap as map;
ghost use Rattle.gt_model.specs.Contents.{key_cmp, nothing, has_repo, value, own, pool_of, found, is_visible, is_pool, is_this, least_member};

use crate::PlainRepo;
use gt_list::NoMemory;
use gt_name::{Name, RefName, RepoPath};
use gt_object::Record;
use std::alloc::{AllocError, Global};
use std::collections::BTreeMap;
use std::marker::Model;

/// Repositories by their paths.
#[derive(Drop)]
pub struct PlainContent {
    repos: BTreeMap<RepoPath, PlainRepo>,
}

impl Model for PlainContent {
    ghost use Rattle.std.specs.FinMap as map;
    ghost use Rattle.gt_model.specs.Contents.{Content};
    ghost use Rattle.gt_plain.specs.Plain.{content_code};

    ghost Value = { Content };

    ghost coded = { content_code };

    ghost view = { λ c. map.from_entries c.repos.entries };
}

impl Clone for PlainContent {
    ghost is_clone = { λ a b. b ≡ a };

    fn clone(&self) -> Result<PlainContent, AllocError> {
        let repos = self.repos.clone()?;
        Ok(PlainContent { repos })
    }
}

impl PlainContent {
    /// No repository.
    pub fn new(alloc: Global) -> PlainContent
        ensures { result ≡ nothing }
    {
        PlainContent {
            repos: BTreeMap::new(alloc),
        }
    }

    /// The repository at a path.
    pub fn get(&self, path: &RepoPath) -> Option<&PlainRepo>
        ensures { option_copied result ≡ map.get self.now path.now }
    {
        self.repos.get(path)
    }

    pub(crate) fn set(&mut self, path: RepoPath, repo: PlainRepo) -> Result<(), NoMemory>
        ensures ok { OnOk result (self.new ≡ map.insert self.old path repo) }
        ensures err { OnErr result (self.new ≡ self.old) }
    {
        self.repos.insert(path, repo)?;
        Ok(())
    }

    pub(crate) fn remove(&mut self, path: &RepoPath)
        ensures { self.new ≡ map.remove self.old path.now }
    {
        let _ = self.repos.remove(path);
    }

    /// The least repository that has this pool.
    pub fn least_member(&self, pool: &RepoPath) -> Option<&RepoPath>
        ensures { option_copied result ≡ least_member self.now pool.now }
    {
        least_with_pool(&self.repos, pool)
    }

    /// The paths of the repositories, ascending.
    pub fn paths(&self, alloc: Global) -> Result<Vec<RepoPath>, NoMemory>
        ensures { IfOk result (λ v. v.items ≡ map.keys self.now) }
    {
        paths_of(alloc, &self.repos)
    }

    /// Whether the content has the path.
    pub fn has_repo(&self, path: &RepoPath) -> bool
        ensures { result ≡ has_repo self.now path.now }
    {
        self.get(path).is_some()
    }

    /// What a reference names.
    pub fn value(&self, path: &RepoPath, name: &RefName) -> Option<Name>
        ensures { result ≡ value self.now path.now name.now }
    {
        match self.get(path) {
            Some(repo) => repo.refs().get(name),
            None => None,
        }
    }

    /// The record of an own object.
    pub fn own(&self, path: &RepoPath, name: &Name) -> Option<&Record>
        ensures { option_copied result ≡ own self.now path.now name.now }
    {
        match self.get(path) {
            Some(repo) => repo.own().get(name),
            None => None,
        }
    }

    /// The path of a repository's pool.
    pub fn pool_of(&self, path: &RepoPath) -> Option<&RepoPath>
        ensures { option_copied result ≡ pool_of self.now path.now }
    {
        match self.get(path) {
            Some(repo) => repo.pool(),
            None => None,
        }
    }

    /// The record that is seen under a name: the own one, else the pool's.
    pub fn found(&self, path: &RepoPath, name: &Name) -> Option<&Record>
        ensures { option_copied result ≡ found self.now path.now name.now }
    {
        if let Some(whole) = self.own(path, name) {
            return Some(whole);
        }
        match self.pool_of(path) {
            Some(pool) => self.own(pool, name),
            None => None,
        }
    }

    /// Whether an object is the repository's own or its pool's.
    pub fn is_visible(&self, path: &RepoPath, name: &Name) -> bool
        ensures { result ≡ is_visible self.now path.now name.now }
    {
        self.found(path, name).is_some()
    }

    pub fn is_pool(&self, path: &RepoPath) -> bool
        ensures { result ≡ is_pool self.now path.now }
    {
        match self.get(path) {
            Some(repo) => repo.is_pool(),
            None => false,
        }
    }
}

fn has_pool(repo: &PlainRepo, pool: &RepoPath) -> bool
    ensures { result ≡ is_this repo.now.pool pool.now }
{
    match repo.pool() {
        Some(path) => path == pool,
        None => false,
    }
}

fn least_with_pool<'a>(
    repos: &'a BTreeMap<RepoPath, PlainRepo>,
    pool: &RepoPath,
) -> Option<&'a RepoPath>
    ensures least { option_copied result ≡ option_map (λ e. e.0) (find (λ e. is_this e.1.pool pool.now) repos.now.entries) }
    ensures ordered { IsOrdered key_cmp repos.now }
{
    for (path, repo) in repos.iter() {
        if has_pool(repo, pool) {
            return Some(path);
        }
    }
    None
}

fn paths_of(alloc: Global, repos: &BTreeMap<RepoPath, PlainRepo>) -> Result<Vec<RepoPath>, NoMemory>
    ensures paths { IfOk result (λ v. v.items ≡ map_list (λ e. e.0) repos.now.entries) }
    ensures ordered { IsOrdered key_cmp repos.now }
{
    let mut paths = Vec::new(alloc);
    for path in repos.keys() {
        paths.push(path.clone()?)?;
    }
    Ok(paths)
}
