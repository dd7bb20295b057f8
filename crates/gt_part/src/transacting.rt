ghost use Rattle.std.specs.Prelude.{◌≡◌, ◌≢◌, ◌++◌, ◌∷◌, [], true, false, Ok, None, IfSome, IfOk, IsErrOf, IsTrue};
ghost use Rattle.gt_model.specs.declared.done.Done.{Done as Answered};
ghost use Rattle.gt_model.specs.declared.event.Event.{Event as Asked};
ghost use Rattle.gt_model.specs.Machine.{is_live, free_number, released};
ghost use Rattle.gt_part.specs.Called.{Called};
ghost use Rattle.gt_act.specs.Cat.{IsNamedSo, CatGives};
ghost use Rattle.gt_act.specs.Live.{GivesPin, EndsBy};
ghost use Rattle.gt_part.specs.Shown.{memory, pins_of};

use crate::Partition;
use crate::noting::{note, take_room};
use gt_act::{Ended, Reply, abort, begin, cat, commit, get_ref, list_refs};
use gt_disk::Disk;
use gt_list::ListOf;
use gt_model::{AddedRecords, Answer, Event, RefUpdates, Refusal, Who, Word};
use gt_name::{Name, RefName, RepoPath};
use gt_pins::Pin;
use gt_stage::{Stage, law_stage};
use std::alloc::Global;

impl<D: Disk + Drop> Partition<D> {
    /// Begins a transaction that reads the front, and gives its pin. `Behind` comes exactly where what was seen is later
    /// than the front, then `PinsFull` exactly where as many are live as the limit allows, then `NoRepository` exactly where the
    /// content at the front lacks the path; `DeviceFault` only of a fault of the disk.
    pub fn begin(&mut self, who: Who, path: &RepoPath, seen: u64, pass: &mut Option<Pin>) -> Answer
        requires { pass.old ≡ None }
        ensures called { Called D.tells D.view D.fault_count D.call_count who (Asked.Begin path.now seen) result self.old self.new }
        ensures gives { GivesPin result pass.new (free_number (pins_of self.old)) }
    {
        let Ok(path) = path.clone() else {
            return Err(Refusal::Memory);
        };
        let (answer, pin) = self.begin_at(who, path, seen);
        *pass = pin;
        answer
    }

    fn begin_at(&mut self, who: Who, path: RepoPath, seen: u64) -> (Answer, Option<Pin>)
        ensures called { Called D.tells D.view D.fault_count D.call_count who (Asked.Begin path seen) result.0 self.old self.new }
        ensures gives { GivesPin result.0 result.1 (free_number (pins_of self.old)) }
    {
        if let Err(_) = take_room(&mut self.trail, self.state.live.len(), 2) {
            return (Err(Refusal::Memory), None);
        }
        let (ended, pin) = begin(&self.limits, &mut self.state, &mut self.disk, &path, seen);
        let tick = self.disk.tick();
        let answer = note(
            &mut self.trail,
            tick,
            who,
            Event::Begin { path, seen },
            Reply::of(ended),
        );
        (answer, pin)
    }

    /// What a reference names at the position of a transaction, or none.
    pub fn get_ref(&mut self, who: Who, pin: &Pin, name: &RefName) -> Answer
        requires { is_live (pins_of self.old) pin.now ≡ true }
        ensures called { Called D.tells D.view D.fault_count D.call_count who (Asked.GetRef pin.now name.now) result self.old self.new }
        ensures pins { pins_of self.new ≡ pins_of self.old }
    {
        let Ok(copy) = name.clone() else {
            return Err(Refusal::Memory);
        };
        if let Err(_) = take_room(&mut self.trail, self.state.live.len(), 1) {
            return Err(Refusal::Memory);
        }
        let ended = get_ref(&self.limits, &self.state, pin, name);
        let tick = self.disk.tick();
        let event = Event::GetRef {
            pin: pin.number(),
            name: copy,
        };
        note(&mut self.trail, tick, who, event, Reply::of(ended))
    }

    /// The references whose names begin so at the position of a transaction, ascending by name. The record keeps the position
    /// in place of the list.
    pub fn list_refs(&mut self, alloc: Global, who: Who, pin: &Pin, prefix: &[u8]) -> Answer
        requires { is_live (pins_of self.old) pin.now ≡ true }
        ensures called { Called D.tells D.view D.fault_count D.call_count who (Asked.ListRefs pin.now prefix.now) result self.old self.new }
        ensures pins { pins_of self.new ≡ pins_of self.old }
    {
        let Ok(word) = Vec::from_slice(alloc, prefix) else {
            return Err(Refusal::Memory);
        };
        if let Err(_) = take_room(&mut self.trail, self.state.live.len(), 1) {
            return Err(Refusal::Memory);
        }
        let reply = list_refs(alloc, &self.limits, &self.state, pin, prefix);
        let tick = self.disk.tick();
        let event = Event::ListRefs {
            pin: pin.number(),
            prefix: ListOf::from_vec(word),
        };
        note(&mut self.trail, tick, who, event, reply)
    }

    /// The record of an object that is visible at the position of a transaction. It is read once, at its place. `Absent`
    /// comes exactly where it isn't visible; `Damaged` exactly where the disk holds no record of that name at the place,
    /// which it names; `DeviceFault` only of a fault of the disk. The record keeps the position in place of the object.
    pub fn cat(&mut self, alloc: Global, who: Who, pin: &Pin, name: &Name) -> Answer
        requires { is_live (pins_of self.old) pin.now ≡ true }
        ensures called { Called D.tells D.view D.fault_count D.call_count who (Asked.Cat pin.now name.now) result self.old self.new }
        ensures named { IsNamedSo name.now result }
        ensures gives { IsTrue D.tells → CatGives self.old.ledger.past (memory self.old) pin.now name.now (D.view self.old.disk).reads result }
        ensures pins { pins_of self.new ≡ pins_of self.old }
    {
        if let Err(_) = take_room(&mut self.trail, self.state.live.len(), 1) {
            return Err(Refusal::Memory);
        }
        let reply = cat(alloc, &self.limits, &self.state, &mut self.disk, pin, name);
        let tick = self.disk.tick();
        let event = Event::Cat {
            pin: pin.number(),
            name: *name,
        };
        note(&mut self.trail, tick, who, event, reply)
    }

    /// Commits what is staged. Where that ends the transaction, its pin is gone: with `Committed`, `Finished` and `Unsure`, and
    /// where a check fails. The checks are those of `gt_verify::verdict` against the content at the front, in their order;
    /// then comes `LogFull`, exactly at the limit of positions. Where nothing is staged there is no check, and the answer is
    /// `Finished`. `DeviceFault` and `Unsure` only of a fault of the disk.
    pub fn commit(
        &mut self,
        alloc: Global,
        who: Who,
        pass: &mut Option<Pin>,
        stage: &Stage,
    ) -> Answer
        requires some { pass.old ≢ None }
        requires live { IfSome pass.old (λ pin. is_live (pins_of self.old) pin ≡ true) }
        ensures called { IfSome pass.old (λ pin. Called D.tells D.view D.fault_count D.call_count who (Asked.Commit pin stage.now.staged.refs stage.now.staged.records) result self.old self.new) }
        ensures ended { IfSome pass.old (λ pin. EndsBy result pin pass.new (pins_of self.old) (pins_of self.new)) }
    {
        match pass.take() {
            None => Err(Refusal::Memory),
            Some(pin) => {
                let answer = self.commit_by(alloc, who, &pin, stage);
                if self.holds(&pin) {
                    *pass = Some(pin);
                }
                answer
            }
        }
    }

    fn commit_by(&mut self, alloc: Global, who: Who, pin: &Pin, stage: &Stage) -> Answer
        requires { is_live (pins_of self.old) pin.now ≡ true }
        ensures called { Called D.tells D.view D.fault_count D.call_count who (Asked.Commit pin.now stage.now.staged.refs stage.now.staged.records) result self.old self.new }
    {
        // a law, which does nothing, as in `commit_noted`
        self.state.live.are_transactions();
        let (Ok(refs), Ok(records)) = (stage.refs(alloc), stage.records(alloc)) else {
            return Err(Refusal::Memory);
        };
        self.commit_noted(alloc, who, pin, stage, refs, records)
    }

    fn commit_noted(
        &mut self,
        alloc: Global,
        who: Who,
        pin: &Pin,
        stage: &Stage,
        refs: RefUpdates,
        records: AddedRecords,
    ) -> Answer
        requires live { is_live (pins_of self.old) pin.now ≡ true }
        requires refs { refs ≡ stage.now.staged.refs }
        requires records { records ≡ stage.now.staged.records }
        ensures called { Called D.tells D.view D.fault_count D.call_count who (Asked.Commit pin.now stage.now.staged.refs stage.now.staged.records) result self.old self.new }
    {
        law_stage(stage);
        self.state.live.are_transactions();
        if let Err(_) = take_room(&mut self.trail, self.state.live.len(), 1) {
            return Err(Refusal::Memory);
        }
        let reply = commit(
            alloc,
            &self.limits,
            &mut self.state,
            &mut self.disk,
            pin,
            stage,
        );
        let tick = self.disk.tick();
        let event = Event::Commit {
            pin: pin.number(),
            refs,
            records,
        };
        note(&mut self.trail, tick, who, event, reply)
    }

    /// Gives a transaction up, which it always does. It takes no memory.
    pub fn abort(&mut self, who: Who, pin: Pin) -> Answer
        requires { is_live (pins_of self.old) pin ≡ true }
        ensures called { Called D.tells D.view D.fault_count D.call_count who (Asked.Abort pin) result self.old self.new }
        ensures aborted { result ≡ Ok Answered.Aborted }
        ensures pins { pins_of self.new ≡ released (pins_of self.old) pin }
    {
        let ended = abort(&self.limits, &mut self.state, &pin);
        let tick = self.disk.tick();
        let event = Event::Abort { pin: pin.number() };
        note(&mut self.trail, tick, who, event, Reply::of(ended))
    }
}
