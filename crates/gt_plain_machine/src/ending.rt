ghost use Rattle.std.specs.Prelude.{◌≡◌, None, nat_le, IfOk, OnErr};
ghost use Rattle.gt_model.specs.declared.done.Done.TheVariants.{Step};
ghost use Rattle.gt_model.specs.Machine.{Ends, adds, opens, works, applies, pin_of, work_of, working, stepped};
ghost use Rattle.gt_plain_machine.specs.States.{as_state, as_effect};

use crate::pins::{left_of, stepped};
use crate::{PlainApplying, PlainEffect, PlainPin, PlainPins, PlainState};
use gt_list::NoMemory;
use gt_model::{Answer, Done, Entry};
use std::alloc::Global;

impl PlainState {
    /// Does what an event comes to, and gives the answer. No entry is left in doubt. Where memory runs out, nothing has
    /// changed.
    pub fn end(&mut self, alloc: Global, effect: PlainEffect) -> Result<Answer, NoMemory>
        ensures ends { IfOk result (λ answer. Ends (as_effect effect) (as_state self.old) answer (as_state self.new)) }
        ensures sure { self.old.doubt ≡ None → self.new.doubt ≡ None }
        ensures same { OnErr result (self.new ≡ self.old) }
    {
        match effect {
            PlainEffect::Refuses(refusal, pins) => {
                self.pins = pins;
                Ok(Err(refusal))
            }
            PlainEffect::Answers(done, pins) => {
                self.pins = pins;
                Ok(Ok(done))
            }
            PlainEffect::Adds(entry, done, pins) => self.end_entry(entry, done, pins),
            PlainEffect::Opens(pin) => self.end_opening(pin),
            PlainEffect::Works(number, count) => self.end_step(alloc, number, count),
            PlainEffect::Applies(applying) => self.end_turn(applying),
            PlainEffect::Removes(floor, done) => {
                self.floor = floor;
                Ok(Ok(done))
            }
        }
    }

    /// The entry joins the log.
    fn end_entry(&mut self, entry: Entry, done: Done, pins: PlainPins) -> Result<Answer, NoMemory>
        ensures ends { IfOk result (λ answer. Ends (adds entry done pins) (as_state self.old) answer (as_state self.new)) }
        ensures sure { self.old.doubt ≡ None → self.new.doubt ≡ None }
        ensures same { OnErr result (self.new ≡ self.old) }
    {
        if let Err(error) = self.log.push(entry) {
            return Err(error);
        }
        self.doubt = None;
        self.pins = pins;
        Ok(Ok(done))
    }

    /// A job is opened.
    fn end_opening(&mut self, pin: PlainPin) -> Result<Answer, NoMemory>
        ensures ends { IfOk result (λ answer. Ends (opens pin) (as_state self.old) answer (as_state self.new)) }
        ensures sure { self.old.doubt ≡ None → self.new.doubt ≡ None }
        ensures same { OnErr result (self.new ≡ self.old) }
    {
        let Some(next) = self.next.checked_add(1) else {
            return Err(NoMemory);
        };
        let position = pin.position();
        if let Err(error) = self.pins.push(pin) {
            return Err(error);
        }
        self.next = next;
        Ok(Ok(Done::HouseOpen { position }))
    }

    /// A job goes on by some units.
    fn end_step(&mut self, alloc: Global, number: u8, count: u32) -> Result<Answer, NoMemory>
        ensures ends { IfOk result (λ answer. Ends (works number count) (as_state self.old) answer (as_state self.new)) }
        ensures sure { self.old.doubt ≡ None → self.new.doubt ≡ None }
        ensures same { OnErr result (self.new ≡ self.old) }
    {
        let left = left_of(self.pins.as_slice(), number);
        match stepped(alloc, self.pins.as_slice(), number, count) {
            Ok(pins) => {
                self.pins = pins;
                Ok(Ok(Done::Step {
                    ready: left <= u64::from(count),
                }))
            }
            Err(error) => Err(error),
        }
    }

    /// Entries are applied.
    fn end_turn(&mut self, applying: PlainApplying) -> Result<Answer, NoMemory>
        ensures ends { IfOk result (λ answer. Ends (applies applying) (as_state self.old) answer (as_state self.new)) }
        ensures sure { self.old.doubt ≡ None → self.new.doubt ≡ None }
        ensures same { OnErr result (self.new ≡ self.old) }
    {
        let Some(epoch) = self.epoch.checked_add(1) else {
            return Err(NoMemory);
        };
        self.applied = applying.position;
        self.epoch = epoch;
        self.manifest_next = applying.next;
        self.turning = None;
        self.next = applying.next;
        Ok(Ok(Done::Applied {
            position: applying.position,
        }))
    }
}
