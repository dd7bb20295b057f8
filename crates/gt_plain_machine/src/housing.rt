ghost use Rattle.std.specs.Prelude.{◌≡◌, Some, true, false, if◌then◌else◌, IfOk};
ghost use Rattle.gt_model.specs.declared.done.Done.TheVariants.{Step};
ghost use Rattle.gt_model.specs.declared.event.Event.TheVariants.{HouseOpen, HouseCommit};
ghost use Rattle.gt_model.specs.Conflicts.{is_unlink};
ghost use Rattle.gt_model.specs.Jobs.{job_change};
ghost use Rattle.gt_model.specs.Machine.{effect, answers, works, pin_of, is_ready_job, is_live, opened_job, opens, free_number};
ghost use Rattle.gt_plain_machine.specs.States.{as_state, as_effect, ComesTo, closed_with};

use crate::pins::{free_number, is_ready_job, work_of};
use crate::{PlainEffect, PlainPin, PlainPins, PlainState, PlainWork};
use gt_list::NoMemory;
use gt_model::{Change, Done, Job, Limits, Refusal};
use gt_name::{Names, RepoPath};
use gt_plain::PlainContent;
use gt_plain_jobs::{dropped_by, job_conflict, units_of};
use std::alloc::Global;

fn is_unlink(job: Job) -> bool
    ensures { result ≡ is_unlink job }
{
    match job {
        Job::Unlink => true,
        Job::Repack => false,
        Job::Prune => false,
        Job::PackRefs => false,
    }
}

/// The change of a job with this file.
fn job_change(job: Job, file: u64, dropped: Names) -> Change
    ensures { result ≡ job_change job file dropped }
{
    match job {
        Job::Repack => Change::Repack { file, dropped },
        Job::Prune => Change::Prune { file, dropped },
        Job::PackRefs => Change::PackRefs { file },
        Job::Unlink => Change::Unlink { file },
    }
}

impl PlainState {
    /// What the opening of a job comes to.
    pub(crate) fn house_open(
        &self,
        alloc: Global,
        limits: &Limits,
        path: &RepoPath,
        job: Job,
    ) -> Result<PlainEffect, NoMemory>
        ensures { IfOk result (λ e. ComesTo (effect limits.now (as_state self.now) (HouseOpen path.now job)) (as_effect e)) }
    {
        let content = self.content_at(alloc, self.applied)?;
        self.opened_job(alloc, limits, path, job, &content)
    }

    /// The same, over the content at the applied position.
    fn opened_job(
        &self,
        alloc: Global,
        limits: &Limits,
        path: &RepoPath,
        job: Job,
        content: &PlainContent,
    ) -> Result<PlainEffect, NoMemory>
        ensures { IfOk result (λ e. ComesTo (opened_job limits.now (as_state self.now) path.now job content.now) (as_effect e)) }
    {
        if usize::from(limits.pins) <= self.pins.len() {
            return self.refused(Refusal::PinsFull);
        }
        if !content.has_repo(path) {
            return self.refused(Refusal::NoRepository);
        }
        if is_unlink(job) && content.pool_of(path).is_none() {
            return self.refused(Refusal::NotLinked);
        }
        if self.has_no_number() {
            return self.refused(Refusal::EpochFull);
        }
        let units = units_of(alloc, content, path, job)?;
        self.opened_with(path, job, units as u64)
    }

    /// The pin of a job with so many units.
    fn opened_with(&self, path: &RepoPath, job: Job, units: u64) -> Result<PlainEffect, NoMemory>
        ensures { let s = as_state self.now in
            IfOk result (λ e. as_effect e ≡ opens (record { number = free_number s.pins; position = s.applied; path = path.now; work = Some (record { job = job; file = s.next; left = units; is_ready = false }) })) }
    {
        Ok(PlainEffect::Opens(PlainPin {
            number: free_number(self.pins.as_slice())?,
            position: self.applied,
            path: path.clone()?,
            work: Some(PlainWork {
                job,
                file: self.next,
                left: units,
                is_ready: false,
            }),
        }))
    }

    /// What a step of a job comes to.
    pub(crate) fn house_step(&self, number: u8, count: u32) -> Result<PlainEffect, NoMemory>
        requires { is_live (as_state self.now).pins number ≡ true }
        ensures { let s = as_state self.now in IfOk result (λ e. as_effect e ≡ (if is_ready_job (pin_of s number) then answers (Step true) s.pins else works number count)) }
    {
        if is_ready_job(self.pin(number)) {
            return self.answered(Done::Step { ready: true });
        }
        Ok(PlainEffect::Works(number, count))
    }

    /// What the commit of a job comes to.
    pub(crate) fn house_commit(
        &self,
        alloc: Global,
        limits: &Limits,
        number: u8,
    ) -> Result<PlainEffect, NoMemory>
        requires { is_live (as_state self.now).pins number ≡ true }
        ensures { IfOk result (λ e. ComesTo (effect limits.now (as_state self.now) (HouseCommit number)) (as_effect e)) }
    {
        let content = self.content_of(alloc, number)?;
        let pins = self.released(alloc, number)?;
        let pin = self.pin(number);
        let dropped = dropped_by(alloc, &content, pin.path(), work_of(pin).job)?;
        self.closed_with(limits, pin, work_of(pin), pins, &content, dropped)
    }

    /// The same for a job that drops these names.
    fn closed_with(
        &self,
        limits: &Limits,
        pin: &PlainPin,
        work: PlainWork,
        pins: PlainPins,
        content: &PlainContent,
        dropped: Names,
    ) -> Result<PlainEffect, NoMemory>
        ensures { IfOk result (λ e. as_effect e ≡ closed_with limits.now (as_state self.now) pin.now work pins content.now dropped) }
    {
        let since = self.entries_past(pin.position());
        if let Some(refusal) = job_conflict(
            content,
            pin.path(),
            work.job,
            dropped.as_slice(),
            since,
        ) {
            return Ok(PlainEffect::Refuses(refusal, pins));
        }
        if self.is_full(limits) {
            return Ok(PlainEffect::Refuses(Refusal::LogFull, pins));
        }
        let change = job_change(work.job, work.file, dropped);
        let entry = self.next_entry(pin.path(), change)?;
        let position = self.next_position()?;
        Ok(PlainEffect::Adds(entry, Done::HouseDone { position }, pins))
    }
}
