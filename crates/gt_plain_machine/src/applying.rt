ghost use Rattle.std.specs.Prelude.{◌≡◌, ◌+◌, IfOk};
ghost use Rattle.gt_model.specs.declared.done.Done.TheVariants.{Trimmed, Swept};
ghost use Rattle.gt_model.specs.declared.event.Event.TheVariants.{Apply};
ghost use Rattle.gt_model.specs.Machine.{effect, removes, low_water, applied_by};
ghost use Rattle.gt_plain_machine.specs.States.{as_state, as_effect};

use crate::positions::first_of;
use crate::{PlainApplying, PlainEffect, PlainState};
use gt_list::NoMemory;
use gt_model::{Done, Entry, Limits, Refusal};
use gt_plain_jobs::new_files;
use std::alloc::Global;

fn sum(one: u64, other: usize) -> Result<u64, NoMemory>
    ensures { IfOk result (λ n. n ≡ one + other) }
{
    match one.checked_add(other as u64) {
        Some(sum) => Ok(sum),
        None => Err(NoMemory),
    }
}

impl PlainState {
    /// What the application of so many entries comes to.
    pub(crate) fn apply(
        &self,
        alloc: Global,
        limits: &Limits,
        count: u32,
    ) -> Result<PlainEffect, NoMemory>
        ensures { IfOk result (λ e. as_effect e ≡ effect limits.now (as_state self.now) (Apply count)) }
    {
        let entries = first_of(self.entries_past(self.applied), u64::from(count));
        self.apply_all(alloc, limits, entries)
    }

    fn apply_all(
        &self,
        alloc: Global,
        limits: &Limits,
        entries: &[Entry],
    ) -> Result<PlainEffect, NoMemory>
        ensures { IfOk result (λ e. as_effect e ≡ applied_by limits.now (as_state self.now) entries.now) }
    {
        if entries.is_empty() {
            return self.answered(Done::Applied {
                position: self.applied,
            });
        }
        if limits.epochs <= self.epoch || self.has_no_number() {
            return self.refused(Refusal::EpochFull);
        }
        let position = sum(self.applied, entries.len())?;
        let next = sum(self.next, new_files(alloc, entries)?)?;
        Ok(PlainEffect::Applies(PlainApplying { position, next }))
    }

    /// What a trim comes to.
    pub(crate) fn trim(&self) -> PlainEffect
        ensures { let s = as_state self.now in as_effect result ≡ removes (low_water s) (Trimmed (low_water s)) }
    {
        let low = self.low_water();
        PlainEffect::Removes(low, Done::Trimmed { low })
    }

    /// What a sweep comes to.
    pub(crate) fn sweep(&self) -> PlainEffect
        ensures { as_effect result ≡ removes (as_state self.now).floor Swept }
    {
        PlainEffect::Removes(self.floor, Done::Swept)
    }
}
