ghost use Rattle.std.specs.Prelude.{◌≡◌, ◌+◌, true, IfOk};
ghost use Rattle.gt_plain.specs.Plain.{staged, answer};
ghost use Rattle.gt_model.specs.declared.event.Event.TheVariants.{Commit};
ghost use Rattle.gt_model.specs.declared.change.Change.TheVariants.{Write};
ghost use Rattle.gt_model.specs.declared.done.Done.TheVariants.{Committed};
ghost use Rattle.gt_model.specs.Verdicts.{added_records};
ghost use Rattle.gt_model.specs.Machine.{effect, adds, next_entry, front, pin_of, released, is_live, is_empty, committed, content};
ghost use Rattle.gt_plain_machine.specs.States.{as_state, as_effect};

use crate::{PlainEffect, PlainState};
use gt_list::{ListOf, NoMemory};
use gt_model::{Added, AddedRecords, Change, Done, Limits, RefUpdate, RefUpdates, Refusal};
use gt_plain::{PlainContent, PlainReady, added_records, verdict};
use std::alloc::Global;

/// Whether nothing is staged.
fn is_empty(refs: &[RefUpdate], records: &[Added]) -> bool
    ensures { result ≡ is_empty refs.now records.now }
{
    match (refs, records) {
        ([], []) => true,
        _ => false,
    }
}

impl PlainState {
    /// What a commit comes to.
    pub(crate) fn commit(
        &self,
        alloc: Global,
        limits: &Limits,
        number: u8,
        refs: &RefUpdates,
        records: &AddedRecords,
    ) -> Result<PlainEffect, NoMemory>
        requires { is_live (as_state self.now).pins number ≡ true }
        ensures { IfOk result (λ e. as_effect e ≡ effect limits.now (as_state self.now) (Commit number refs.now records.now)) }
    {
        if is_empty(refs.as_slice(), records.as_slice()) {
            let position = self.pin(number).position();
            let pins = self.released(alloc, number)?;
            return Ok(PlainEffect::Answers(Done::Finished { position }, pins));
        }
        let content = self.content(alloc)?;
        let answer = verdict(alloc, &content, self.pin(number).path(), refs, records)?;
        self.committed(alloc, limits, number, &content, refs, records, answer)
    }

    /// What a commit of this verdict comes to, over the content at the front.
    fn committed(
        &self,
        alloc: Global,
        limits: &Limits,
        number: u8,
        seen: &PlainContent,
        refs: &RefUpdates,
        records: &AddedRecords,
        verdict: Result<PlainReady, Refusal>,
    ) -> Result<PlainEffect, NoMemory>
        requires live { is_live (as_state self.now).pins number ≡ true }
        requires seen { seen.now ≡ content (as_state self.now) }
        ensures { IfOk result (λ e. as_effect e ≡ committed limits.now (as_state self.now) number (staged refs.now records.now) (answer verdict)) }
    {
        let ready = match verdict {
            Ok(ready) => ready,
            Err(refusal) => {
                let pins = self.released(alloc, number)?;
                return Ok(PlainEffect::Refuses(refusal, pins));
            }
        };
        if self.is_full(limits) {
            return self.refused(Refusal::LogFull);
        }
        self.written(alloc, number, seen, refs, records, ready)
    }

    /// The entry of a good commit, with its pin gone.
    fn written(
        &self,
        alloc: Global,
        number: u8,
        content: &PlainContent,
        refs: &RefUpdates,
        records: &AddedRecords,
        ready: PlainReady,
    ) -> Result<PlainEffect, NoMemory>
        requires { is_live (as_state self.now).pins number ≡ true }
        ensures { let s = as_state self.now in let path = (pin_of s number).path in
            IfOk result (λ e. as_effect e ≡ adds (next_entry s path (Write ready.refs ready.needed (added_records content.now path (staged refs.now records.now)))) (Committed (front s + 1)) (released s.pins number)) }
    {
        let path = self.pin(number).path();
        let added = added_records(alloc, content, path, records.as_slice())?;
        let change = Change::Write {
            refs: ready.refs,
            needed: ready.needed,
            added: ListOf::from_vec(added),
        };
        let entry = self.next_entry(path, change)?;
        let position = self.next_position()?;
        let pins = self.released(alloc, number)?;
        Ok(PlainEffect::Adds(entry, Done::Committed { position }, pins))
    }
}
