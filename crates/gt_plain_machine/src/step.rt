ghost use Rattle.std.specs.Prelude.{◌≡◌, None, true, IfOk, OnErr};
ghost use Rattle.gt_model.specs.Machine.{Ends, effect, is_asked};
ghost use Rattle.gt_plain_machine.specs.States.{as_state, as_effect, ComesTo};

use crate::pins::{is_live, is_live_job, is_live_ready_job, is_live_transaction};
use crate::{PlainEffect, PlainState};
use gt_list::NoMemory;
use gt_model::{Answer, Event, Limits};
use std::alloc::Global;

impl PlainState {
    /// Whether an event that names a pin is asked by a live one of its kind.
    pub fn is_asked(&self, event: &Event) -> bool
        ensures { result ≡ is_asked (as_state self.now) event.now }
    {
        let pins = self.pins.as_slice();
        match event {
            Event::GetRef { pin, name: _ } => is_live(pins, *pin),
            Event::ListRefs { pin, prefix: _ } => is_live(pins, *pin),
            Event::Cat { pin, name: _ } => is_live(pins, *pin),
            Event::Commit {
                pin,
                refs: _,
                records: _,
            } => is_live_transaction(pins, *pin),
            Event::Abort { pin } => is_live(pins, *pin),
            Event::HouseStep { pin, n: _ } => is_live_job(pins, *pin),
            Event::HouseCommit { pin } => is_live_ready_job(pins, *pin),
            Event::Create { .. } => true,
            Event::Delete { .. } => true,
            Event::Link { .. } => true,
            Event::Begin { .. } => true,
            Event::HouseOpen { .. } => true,
            Event::Apply { .. } => true,
            Event::Trim => true,
            Event::Sweep => true,
        }
    }

    /// What an event comes to where nothing is in doubt and neither the disk nor memory fails.
    pub fn effect(
        &self,
        alloc: Global,
        limits: &Limits,
        event: &Event,
    ) -> Result<PlainEffect, NoMemory>
        requires { is_asked (as_state self.now) event.now ≡ true }
        ensures { IfOk result (λ e. ComesTo (effect limits.now (as_state self.now) event.now) (as_effect e)) }
    {
        match event {
            Event::Create { path, pool } => self.create(alloc, limits, path, *pool),
            Event::Delete { path } => self.delete(alloc, limits, path),
            Event::Link { path, pool } => self.link(alloc, limits, path, pool),
            Event::Begin { path, seen } => self.begin(alloc, limits, path, *seen),
            Event::GetRef { pin, name } => self.get_ref(alloc, *pin, name),
            Event::ListRefs { pin, prefix } => self.list_refs(alloc, *pin, prefix.as_slice()),
            Event::Cat { pin, name } => self.cat(alloc, *pin, name),
            Event::Commit { pin, refs, records } => self.commit(alloc, limits, *pin, refs, records),
            Event::Abort { pin } => self.abort(alloc, *pin),
            Event::HouseOpen { path, job } => self.house_open(alloc, limits, path, *job),
            Event::HouseStep { pin, n } => self.house_step(*pin, *n),
            Event::HouseCommit { pin } => self.house_commit(alloc, limits, *pin),
            Event::Apply { n } => self.apply(alloc, limits, *n),
            Event::Trim => Ok(self.trim()),
            Event::Sweep => Ok(self.sweep()),
        }
    }

    /// One event, with nothing in doubt, on a disk that doesn't fail: its answer, and the state after it. Where memory runs out,
    /// nothing has changed.
    pub fn step(
        &mut self,
        alloc: Global,
        limits: &Limits,
        event: &Event,
    ) -> Result<Answer, NoMemory>
        requires { is_asked (as_state self.old) event.now ≡ true }
        ensures ends { IfOk result (λ answer. Ends (effect limits.now (as_state self.old) event.now) (as_state self.old) answer (as_state self.new)) }
        ensures sure { self.old.doubt ≡ None → self.new.doubt ≡ None }
        ensures same { OnErr result (self.new ≡ self.old) }
    {
        let effect = match self.effect(alloc, limits, event) {
            Ok(effect) => effect,
            Err(error) => return Err(error),
        };
        self.end(alloc, effect)
    }
}
