ghost use Rattle.std.specs.Prelude.{◌≡◌, IfOk};
ghost use Rattle.gt_model.specs.Batches.{next_past};
ghost use Rattle.gt_model.specs.Machine.{opening, unapplied, recovered_of};
ghost use Rattle.gt_plain_machine.specs.States.{as_state, as_recovered};

use crate::{PlainRecovered, PlainState};
use gt_list::{ListOf, NoMemory};
use gt_model::{Entry, EntryList};
use gt_plain::PlainContent;
use gt_plain_jobs::next_past;
use std::alloc::Global;

fn next_number(next: u64, log: &[Entry]) -> Result<u64, NoMemory>
    ensures { IfOk result (λ n. n ≡ next_past next log.now) }
{
    match u64::try_from(next_past(next, log)) {
        Ok(next) => Ok(next),
        Err(_) => Err(NoMemory),
    }
}

fn copy_of(entry: &Entry) -> Result<Entry, NoMemory>
    ensures { IfOk result (λ e. e ≡ entry.now) }
{
    match entry.clone() {
        Ok(entry) => Ok(entry),
        Err(_) => Err(NoMemory),
    }
}

fn copies_of(alloc: Global, entries: &[Entry]) -> Result<EntryList, NoMemory>
    ensures { IfOk result (λ list. list ≡ entries.now) }
{
    let mut copies = ListOf::new(alloc);
    for entry in entries {
        copies.push(copy_of(entry)?)?;
    }
    Ok(copies)
}

/// A log of which nothing has been applied.
pub fn unapplied(alloc: Global, log: EntryList) -> PlainRecovered
    ensures { as_recovered result ≡ unapplied log }
{
    PlainRecovered {
        epoch: 0,
        applied: 0,
        next: 1,
        base: PlainContent::new(alloc),
        log,
    }
}

/// The state as it is opened over what was recovered: nothing is in doubt and nothing is live.
pub fn opening(alloc: Global, recovered: PlainRecovered) -> Result<PlainState, NoMemory>
    ensures { IfOk result (λ s. as_state s ≡ opening (as_recovered recovered)) }
{
    let next = next_number(recovered.next, recovered.log.as_slice())?;
    Ok(PlainState {
        begin: recovered.applied,
        base: recovered.base,
        log: recovered.log,
        doubt: None,
        pins: ListOf::new(alloc),
        applied: recovered.applied,
        epoch: recovered.epoch,
        manifest_next: recovered.next,
        turning: None,
        floor: recovered.applied,
        next,
    })
}

impl PlainState {
    /// What the files have of a state in which nothing is in doubt: what is applied is the base.
    pub fn recovered_of(&self, alloc: Global) -> Result<PlainRecovered, NoMemory>
        ensures { IfOk result (λ r. as_recovered r ≡ recovered_of (as_state self.now)) }
    {
        let base = self.content_at(alloc, self.applied)?;
        let log = copies_of(alloc, self.entries_past(self.applied))?;
        Ok(PlainRecovered {
            epoch: self.epoch,
            applied: self.applied,
            next: self.manifest_next,
            base,
            log,
        })
    }
}
