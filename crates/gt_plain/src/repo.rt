ghost use Rattle.std.specs.Prelude.{◌≡◌, OnOk, Some, None};
ghost use Rattle.std.specs.Option.{option_copied};
ghost use Rattle.gt_model.specs.Contents.{new_repo, with_refs, with_added, without, union};
ghost use Rattle.gt_plain.specs.Plain.{or_empty};

use crate::{PlainOwn, PlainRefs};
use gt_list::NoMemory;
use gt_model::{Added, RefUpdate};
use gt_name::{Name, RepoPath};
use std::alloc::{AllocError, Global};
use std::marker::Model;

/// A repository.
#[derive(Drop)]
pub struct PlainRepo {
    refs: PlainRefs,
    own: PlainOwn,
    pool: Option<RepoPath>,
    is_pool: bool,
}

impl Model for PlainRepo {
    ghost use Rattle.gt_model.specs.Contents.{Repo};
    ghost use Rattle.gt_plain.specs.Plain.{repo_code};

    ghost Value = { Repo };

    ghost coded = { repo_code };

    ghost view = { λ r. record { refs = r.refs; own = r.own; pool = r.pool; is_pool = r.is_pool } };
}

impl Clone for PlainRepo {
    ghost is_clone = { λ a b. b ≡ a };

    fn clone(&self) -> Result<PlainRepo, AllocError> {
        let refs = self.refs.clone()?;
        let own = self.own.clone()?;
        let pool = self.pool.clone()?;
        Ok(PlainRepo {
            refs,
            own,
            pool,
            is_pool: self.is_pool,
        })
    }
}

impl PlainRepo {
    /// A new repository, or a new pool.
    pub fn new(alloc: Global, is_pool: bool) -> PlainRepo
        ensures { result ≡ new_repo is_pool }
    {
        PlainRepo {
            refs: PlainRefs::new(alloc),
            own: PlainOwn::new(alloc),
            pool: None,
            is_pool,
        }
    }

    pub fn refs(&self) -> &PlainRefs
        ensures { result.now ≡ self.now.refs }
    {
        &self.refs
    }

    pub fn own(&self) -> &PlainOwn
        ensures { result.now ≡ self.now.own }
    {
        &self.own
    }

    /// The path of its pool.
    pub fn pool(&self) -> Option<&RepoPath>
        ensures { option_copied result ≡ self.now.pool }
    {
        self.pool.as_ref()
    }

    pub fn is_pool(&self) -> bool
        ensures { result ≡ self.now.is_pool }
    {
        self.is_pool
    }

    /// It becomes a member of a pool.
    pub(crate) fn link(&mut self, pool: RepoPath)
        ensures { self.new ≡ record self.old { pool = Some pool } }
    {
        self.pool = Some(pool);
    }

    /// Makes updates and adds records, in order.
    pub(crate) fn write(&mut self, refs: &[RefUpdate], added: &[Added]) -> Result<(), NoMemory>
        ensures { OnOk result (self.new ≡ record self.old { refs = with_refs self.old.refs refs.now; own = with_added self.old.own added.now }) }
    {
        if let Err(error) = self.refs.update_all(refs) {
            return Err(error);
        }
        self.own.add_all(added)
    }

    /// Takes own objects away.
    pub(crate) fn drop_own(&mut self, names: &[Name])
        ensures { self.new ≡ record self.old { own = without self.old.own names.now } }
    {
        self.own.remove_all(names);
    }

    /// It leaves its pool, and owns what the pool had.
    pub(crate) fn unlink(&mut self, pool: Option<&PlainOwn>) -> Result<(), NoMemory>
        ensures { OnOk result (self.new ≡ record self.old { own = union self.old.own (or_empty (option_copied pool.entry)); pool = None }) }
    {
        self.pool = None;
        match pool {
            Some(pool) => self.own.unite(pool),
            None => Ok(()),
        }
    }
}
