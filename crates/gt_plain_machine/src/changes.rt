ghost use Rattle.std.specs.Prelude.{◌≡◌, IfOk};
ghost use Rattle.gt_model.specs.declared.event.Event.TheVariants.{Create, Delete, Link};
ghost use Rattle.gt_model.specs.Machine.{effect};
ghost use Rattle.gt_plain_machine.specs.States.{as_state, as_effect};

use crate::{PlainEffect, PlainState};
use gt_list::NoMemory;
use gt_model::{Change, Done, Limits, Refusal};
use gt_name::RepoPath;
use std::alloc::Global;

impl PlainState {
    /// What making a repository comes to.
    pub(crate) fn create(
        &self,
        alloc: Global,
        limits: &Limits,
        path: &RepoPath,
        pool: bool,
    ) -> Result<PlainEffect, NoMemory>
        ensures { IfOk result (λ e. as_effect e ≡ effect limits.now (as_state self.now) (Create path.now pool)) }
    {
        let content = self.content(alloc)?;
        if content.has_repo(path) {
            return self.refused(Refusal::RepositoryExists);
        }
        if self.is_full(limits) {
            return self.refused(Refusal::LogFull);
        }
        let position = self.next_position()?;
        self.added(
            path,
            Change::Create { pool },
            Done::Created { position, pool },
        )
    }

    /// What the deletion of a repository comes to.
    pub(crate) fn delete(
        &self,
        alloc: Global,
        limits: &Limits,
        path: &RepoPath,
    ) -> Result<PlainEffect, NoMemory>
        ensures { IfOk result (λ e. as_effect e ≡ effect limits.now (as_state self.now) (Delete path.now)) }
    {
        let content = self.content(alloc)?;
        if !content.has_repo(path) {
            return self.refused(Refusal::NoRepository);
        }
        if let Some(member) = content.least_member(path) {
            let member = member.clone()?;
            return self.refused(Refusal::PoolInUse { member });
        }
        if self.is_full(limits) {
            return self.refused(Refusal::LogFull);
        }
        let position = self.next_position()?;
        self.added(path, Change::Delete, Done::Deleted { position })
    }

    /// What a link to a pool comes to.
    pub(crate) fn link(
        &self,
        alloc: Global,
        limits: &Limits,
        path: &RepoPath,
        pool: &RepoPath,
    ) -> Result<PlainEffect, NoMemory>
        ensures { IfOk result (λ e. as_effect e ≡ effect limits.now (as_state self.now) (Link path.now pool.now)) }
    {
        let content = self.content(alloc)?;
        if !(content.has_repo(path) && content.has_repo(pool)) {
            return self.refused(Refusal::NoRepository);
        }
        if content.is_pool(path) {
            return self.refused(Refusal::IsPool);
        }
        if !content.is_pool(pool) {
            return self.refused(Refusal::NotPool);
        }
        if content.pool_of(path).is_some() {
            return self.refused(Refusal::AlreadyLinked);
        }
        if self.is_full(limits) {
            return self.refused(Refusal::LogFull);
        }
        let position = self.next_position()?;
        let pool = pool.clone()?;
        self.added(path, Change::Link { pool }, Done::Linked { position })
    }
}
