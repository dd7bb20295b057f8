ghost use Rattle.std.specs.Prelude.{◌≡◌, IfOk, OnOk, OnErr, Some, None};
ghost use Rattle.std.specs.Option.{option_copied};
ghost use Rattle.std.specs.FinMap as map;
ghost use Rattle.gt_model.specs.Contents.{new_repo, pool_own, with_refs, with_added, without, union, unlinked, at_repo, after};
ghost use Rattle.gt_plain.specs.Plain.{or_empty};

use crate::{PlainContent, PlainOwn, PlainRepo};
use gt_list::NoMemory;
use gt_model::{Added, Change, Entry, RefUpdate};
use gt_name::{Name, RepoPath};
use std::alloc::Global;

impl PlainContent {
    /// Makes the change of an entry. Where memory runs out, nothing has changed.
    #[tactic(auto, unfolding(gt_model::specs::Contents::changed))]
    pub fn apply(&mut self, alloc: Global, entry: &Entry) -> Result<(), NoMemory>
        ensures ok { OnOk result (self.new ≡ after self.old entry.now) }
        ensures err { OnErr result (self.new ≡ self.old) }
    {
        let path = &entry.path;
        match &entry.change {
            Change::Create { pool } => self.put(path, PlainRepo::new(alloc, *pool)),
            Change::Delete => {
                self.remove(path);
                Ok(())
            }
            Change::Link { pool } => self.link(path, pool),
            Change::Write {
                refs,
                needed: _,
                added,
            } => self.write(path, refs.as_slice(), added.as_slice()),
            Change::Repack { file: _, dropped } => self.drop_own(path, dropped.as_slice()),
            Change::Prune { file: _, dropped } => self.drop_own(path, dropped.as_slice()),
            Change::PackRefs { file: _ } => Ok(()),
            Change::Unlink { file: _ } => self.unlink(path),
        }
    }

    fn put(&mut self, path: &RepoPath, repo: PlainRepo) -> Result<(), NoMemory>
        ensures ok { OnOk result (self.new ≡ map.insert self.old path.now repo) }
        ensures err { OnErr result (self.new ≡ self.old) }
    {
        match path.clone() {
            Ok(path) => self.set(path, repo),
            Err(_) => Err(NoMemory),
        }
    }

    fn link(&mut self, path: &RepoPath, pool: &RepoPath) -> Result<(), NoMemory>
        ensures ok { OnOk result (self.new ≡ at_repo self.old path.now (λ r. record r { pool = Some pool.now })) }
        ensures err { OnErr result (self.new ≡ self.old) }
    {
        let Some(repo) = self.get(path) else {
            return Ok(());
        };
        match linked(repo, pool) {
            Ok(repo) => self.put(path, repo),
            Err(error) => Err(error),
        }
    }

    fn write(
        &mut self,
        path: &RepoPath,
        refs: &[RefUpdate],
        added: &[Added],
    ) -> Result<(), NoMemory>
        ensures ok { OnOk result (self.new ≡ at_repo self.old path.now (λ r. record r { refs = with_refs r.refs refs.now; own = with_added r.own added.now })) }
        ensures err { OnErr result (self.new ≡ self.old) }
    {
        let Some(repo) = self.get(path) else {
            return Ok(());
        };
        match written(repo, refs, added) {
            Ok(repo) => self.put(path, repo),
            Err(error) => Err(error),
        }
    }

    fn drop_own(&mut self, path: &RepoPath, names: &[Name]) -> Result<(), NoMemory>
        ensures ok { OnOk result (self.new ≡ at_repo self.old path.now (λ r. record r { own = without r.own names.now })) }
        ensures err { OnErr result (self.new ≡ self.old) }
    {
        let Some(repo) = self.get(path) else {
            return Ok(());
        };
        match dropped(repo, names) {
            Ok(repo) => self.put(path, repo),
            Err(error) => Err(error),
        }
    }

    fn unlink(&mut self, path: &RepoPath) -> Result<(), NoMemory>
        ensures ok { OnOk result (self.new ≡ at_repo self.old path.now (unlinked self.old)) }
        ensures err { OnErr result (self.new ≡ self.old) }
    {
        let Some(repo) = self.get(path) else {
            return Ok(());
        };
        match unlinked(repo, self.pool_own(repo)) {
            Ok(repo) => self.put(path, repo),
            Err(error) => Err(error),
        }
    }

    /// The own objects of a repository's pool.
    fn pool_own(&self, repo: &PlainRepo) -> Option<&PlainOwn>
        ensures { or_empty (option_copied result) ≡ pool_own self.now repo.now.pool }
    {
        let Some(pool) = repo.pool() else {
            return None;
        };
        match self.get(pool) {
            Some(pool) => Some(pool.own()),
            None => None,
        }
    }
}

fn copied(repo: &PlainRepo) -> Result<PlainRepo, NoMemory>
    ensures { IfOk result (λ r. r ≡ repo.now) }
{
    match repo.clone() {
        Ok(repo) => Ok(repo),
        Err(_) => Err(NoMemory),
    }
}

fn linked(repo: &PlainRepo, pool: &RepoPath) -> Result<PlainRepo, NoMemory>
    ensures { IfOk result (λ r. r ≡ record repo.now { pool = Some pool.now }) }
{
    let mut repo = copied(repo)?;
    repo.link(pool.clone()?);
    Ok(repo)
}

fn written(repo: &PlainRepo, refs: &[RefUpdate], added: &[Added]) -> Result<PlainRepo, NoMemory>
    ensures { IfOk result (λ r. r ≡ record repo.now { refs = with_refs repo.now.refs refs.now; own = with_added repo.now.own added.now }) }
{
    let mut repo = copied(repo)?;
    repo.write(refs, added)?;
    Ok(repo)
}

fn dropped(repo: &PlainRepo, names: &[Name]) -> Result<PlainRepo, NoMemory>
    ensures { IfOk result (λ r. r ≡ record repo.now { own = without repo.now.own names.now }) }
{
    let mut repo = copied(repo)?;
    repo.drop_own(names);
    Ok(repo)
}

fn unlinked(repo: &PlainRepo, pool: Option<&PlainOwn>) -> Result<PlainRepo, NoMemory>
    ensures { IfOk result (λ r. r ≡ record repo.now { own = union repo.now.own (or_empty (option_copied pool.entry)); pool = None }) }
{
    let mut repo = copied(repo)?;
    repo.unlink(pool)?;
    Ok(repo)
}
