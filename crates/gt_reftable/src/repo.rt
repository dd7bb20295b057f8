ghost use Rattle.std.specs.Prelude.{◌≡◌, ◌≤◌, ◌<◌, ℕ, List, true, false, None, IsTrue, IfOk, OnOk, OnErr, [], not, ◌&&◌, find};
ghost use Rattle.std.specs.FinMap as map;
ghost use Rattle.std.specs.List.{list_any};
ghost use Rattle.std.specs.Option.{option_copied};
ghost use Rattle.gt_model.specs.Verdicts.{clashes, same_name};
ghost use Rattle.gt_model.specs.Machine.{references};
ghost use Rattle.gt_versions.specs.Versions.{IsUpTo, ready};
ghost use Rattle.gt_slots.specs.Slots.{items_of};
ghost use Rattle.gt_reftable.specs.Lean.{is_needed, IsLeanRepo};
ghost use Rattle.gt_reftable.specs.Raised.{RaisesTrack};
ghost use Rattle.gt_reftable.specs.Tracks.{value_in, refs_of, IsInStep, IsTrackUpTo, given, step_updates, is_named, HasPlace, HasRoom, IsRoomier, Moves, PutsLife, PutsUpdate, Seeds};

use crate::current::Current;
use gt_list::NoMemory;
use gt_model::{RefList, RefUpdate};
use gt_name::{Name, Names2, RefName};
use gt_slots::Slots;
use gt_versions::Versions;
use std::alloc::Global;
use std::marker::Model;

/// When a repository was made or deleted, and its references: all that were written, and apart those that are there at the
/// newest position.
#[derive(Drop)]
pub struct RepoRefs {
    lives: Versions<bool>,
    refs: Slots,
    current: Current,
}

impl Model for RepoRefs {
    ghost use Rattle.gt_reftable.specs.Tracks.{Track, track_code};

    ghost Value = { Track };

    ghost coded = { track_code };

    ghost view = { λ r. record { lives = r.lives; refs = r.refs; current = r.current } };
}

impl RepoRefs {
    /// A repository that was never made or deleted, without references.
    pub fn new(alloc: Global) -> RepoRefs
        ensures lives { result.lives.0 ≡ [] }
        ensures refs { result.refs ≡ map.empty }
        ensures current { result.current ≡ map.empty }
    {
        RepoRefs {
            lives: Versions::new(alloc),
            refs: Slots::new(alloc),
            current: Current::new(alloc),
        }
    }

    /// What a reference names at a position.
    pub fn value(&self, position: u64, name: &RefName) -> Option<Name>
        ensures { result ≡ value_in self.now position name.now }
    {
        self.refs.value(self.lives.start(position), position, name)
    }

    /// The references at a position whose names begin so, ascending. It passes all that were ever written.
    pub fn list(&self, alloc: Global, position: u64, prefix: &[u8]) -> Result<RefList, NoMemory>
        ensures { IfOk result (λ l. l ≡ references (refs_of self.now position) prefix.now) }
    {
        self.refs
            .list(alloc, self.lives.start(position), position, prefix)
    }

    /// The references at the newest position whose names begin so, ascending. It passes none that was
    /// deleted.
    pub fn list_newest(
        &self,
        alloc: Global,
        position: u64,
        prefix: &[u8],
    ) -> Result<RefList, NoMemory>
        requires { IsTrackUpTo position self.now }
        ensures { IfOk result (λ l. l ≡ references (refs_of self.now position) prefix.now) }
    {
        self.current.list(alloc, position, prefix)
    }

    /// The least reference at a position that stands in the folder of `name`, or in whose folder `name` stands, and that
    /// isn't gone. It passes all that were ever written in that folder.
    pub fn clash(&self, position: u64, name: &RefName, gone: &Names2) -> Option<&RefName>
        ensures { option_copied result ≡ find (λ other. clashes name.now other && not (list_any (same_name other) gone.now)) (map.keys (refs_of self.now position)) }
    {
        self.refs
            .clash(self.lives.start(position), position, name, gone)
    }

    /// `clash` at the newest position. It passes no reference that was deleted.
    pub fn clash_newest(&self, position: u64, name: &RefName, gone: &Names2) -> Option<&RefName>
        requires { IsTrackUpTo position self.now }
        ensures { option_copied result ≡ find (λ other. clashes name.now other && not (list_any (same_name other) gone.now)) (map.keys (refs_of self.now position)) }
    {
        self.current.clash(position, name, gone)
    }

    /// It is made or deleted at a position, in room that was taken before.
    pub fn put_life(&mut self, position: u64, there: bool)
        requires after { IsUpTo position self.old.lives.0 }
        requires room { IsTrue (ready position self.old.lives) }
        ensures { PutsLife position there self.old self.new }
    {
        self.lives.put(position, there);
        self.current.clear();
    }

    /// Makes updates from a position on, in room that was taken before.
    pub fn write(&mut self, position: u64, updates: &[RefUpdate])
        requires after { IsTrackUpTo position self.old }
        requires room { HasRoom position self.old updates.now }
        ensures { Moves position (step_updates updates.now) self.old self.new }
    {
        self.put_updates(position, updates);
        self.current.trim(position, updates);
    }

    /// Puts the values of updates. What is deleted stays among the newest for now, with no value, so that a further update of
    /// it finds its room.
    fn put_updates(&mut self, position: u64, updates: &[RefUpdate])
        requires after { IsInStep position self.old }
        requires room { HasRoom position self.old updates.now }
        ensures since { (p : ℕ) (x : List ℕ) → position ≤ p → value_in self.new p x ≡ step_updates updates.now x (value_in self.old p x) }
        ensures earlier { (p : ℕ) (x : List ℕ) → p < position → value_in self.new p x ≡ value_in self.old p x }
        ensures newest { IsInStep position self.new }
        ensures others { (x : List ℕ) → is_named x updates.now ≡ false → items_of (map.get self.new.current x) ≡ items_of (map.get self.old.current x) }
    {
        for update in updates {
            self.put_update(position, update);
        }
    }

    /// Drops what only positions before `to` need. Whether anything is left of it. It takes no memory, and costs in proportion
    /// to all that was written to the repository since the floor.
    pub fn raise(&mut self, to: u64) -> bool
        ensures raised { RaisesTrack to self.old self.new }
        ensures lean { result ≡ true → IsLeanRepo to self.new }
        ensures gone { result ≡ false → (p : ℕ) (x : List ℕ) → value_in self.new p x ≡ None }
    {
        let start = self.lives.start(to);
        self.lives.drop_up_to(to);
        self.refs.raise(start, to);
        self.current.raise(to);
        self.is_needed()
    }

    /// Whether it was made or deleted past the floor, or has a reference.
    fn is_needed(&self) -> bool
        ensures { result ≡ is_needed self.now }
    {
        !self.lives.is_empty() || !self.refs.is_empty()
    }

    /// Takes room for being made or deleted.
    pub fn prepare_life(&mut self) -> Result<(), NoMemory>
        ensures same { IsRoomier self.old self.new }
        ensures ok { OnOk result ((q : ℕ) → IsTrue (ready q self.new.lives)) }
    {
        self.lives.reserve()
    }

    /// Takes room for updates.
    pub fn prepare(&mut self, alloc: Global, updates: &[RefUpdate]) -> Result<(), NoMemory>
        ensures same { IsRoomier self.old self.new }
        ensures ok { OnOk result ((q : ℕ) → HasRoom q self.new updates.now) }
    {
        for update in updates {
            if let Err(error) = self.prepare_update(alloc, update) {
                return Err(error);
            }
        }
        Ok(())
    }

    /// A reference has this value at the newest position, in place of the one that it has there.
    pub fn seed(
        &mut self,
        alloc: Global,
        position: u64,
        name: &RefName,
        value: Name,
    ) -> Result<(), NoMemory>
        requires { IsTrackUpTo position self.old }
        ensures ok { OnOk result (Seeds position name.now value self.old self.new) }
        ensures err { OnErr result (IsRoomier self.old self.new) }
    {
        if let Err(error) = self.refs.prepare(alloc, name) {
            return Err(error);
        }
        if let Err(error) = self.current.prepare(alloc, name) {
            return Err(error);
        }
        self.refs.put(position, name, Some(value));
        self.current.put(position, name, Some(value));
        Ok(())
    }

    fn put_update(&mut self, position: u64, update: &RefUpdate)
        requires after { IsInStep position self.old }
        requires room { HasPlace position self.old update.now.name update.now.new }
        ensures { PutsUpdate position update.now self.old self.new }
    {
        if let Some(new) = update.new {
            self.refs.put(position, &update.name, given(new));
            self.current.put(position, &update.name, given(new));
        }
    }

    fn prepare_update(&mut self, alloc: Global, update: &RefUpdate) -> Result<(), NoMemory>
        ensures same { IsRoomier self.old self.new }
        ensures ok { OnOk result ((q : ℕ) → HasPlace q self.new update.now.name update.now.new) }
    {
        if update.new.is_none() {
            return Ok(());
        }
        if let Err(error) = self.refs.prepare(alloc, &update.name) {
            return Err(error);
        }
        self.current.prepare(alloc, &update.name)
    }
}

/// What a reference names once it has this value: nothing where that is zero.
fn given(new: Name) -> Option<Name>
    ensures { result ≡ given new }
{
    if new == Name::ZERO { None } else { Some(new) }
}
