ghost use Rattle.std.specs.Prelude.{◌≡◌, ℕ, List, true, false, if◌then◌else◌, IsTrue, IfOk, OnOk, OnErr, None, not, ◌&&◌, find};
ghost use Rattle.std.specs.FinMap as map;
ghost use Rattle.std.specs.List.{list_any};
ghost use Rattle.std.specs.Option.{option_copied};
ghost use Rattle.std.specs.Ordering.{eq_by_cmp};
ghost use Rattle.gt_model.specs.Contents.{key_cmp};
ghost use Rattle.gt_model.specs.Verdicts.{clashes, same_name};
ghost use Rattle.gt_model.specs.Machine.{references};
ghost use Rattle.gt_versions.specs.Versions.{IsUpTo};
ghost use Rattle.gt_slots.specs.Present.{refs_since};
ghost use Rattle.gt_slots.specs.Raised.{Raises};
ghost use Rattle.gt_slots.specs.Slots.{items_of, slot_ready, PutsRef, IsRoomier};
ghost use Rattle.gt_reftable.specs.Tracks.{step_trim, trimmed};

use gt_list::NoMemory;
use gt_model::{RefList, RefUpdate};
use gt_name::{Name, Names2, RefName};
use gt_slots::Slots;
use std::alloc::Global;
use std::marker::Model;
use std::mem;

/// The references of a repository that are there at the newest position. Those of its earlier lives don't count, and are set
/// aside where memory is taken: to let them go costs time in proportion to them.
#[derive(Drop)]
pub struct Current {
    refs: Slots,
    is_over: bool,
    past: Vec<Slots>,
}

impl Model for Current {
    ghost use Rattle.std.specs.Prelude.{List, ℕ, Option, if◌then◌else◌};
    ghost use Rattle.std.specs.FinMap as map;
    ghost use Rattle.std.specs.FinMap.{FinMap};
    ghost use Rattle.gt_model.specs.Contents.{key_cmp};
    ghost use Rattle.gt_slots.specs.Slots.{slots_code};

    ghost Value = { FinMap key_cmp (List (ℕ × Option (List ℕ)) × ℕ) };

    ghost coded = { slots_code };

    ghost view = { λ c. if c.is_over then map.empty else c.refs };
}

impl Current {
    /// No reference. It takes no memory.
    pub fn new(alloc: Global) -> Current
        ensures { result ≡ map.empty }
    {
        Current {
            refs: Slots::new(alloc),
            is_over: false,
            past: Vec::new(alloc),
        }
    }

    /// No reference is there any more. It takes no memory, and costs nothing.
    pub fn clear(&mut self)
        ensures { self.new ≡ map.empty }
    {
        self.is_over = true;
    }

    /// Takes room for a further value of a reference.
    pub fn prepare(&mut self, alloc: Global, name: &RefName) -> Result<(), NoMemory>
        ensures same { IsRoomier self.old self.new }
        ensures ok { OnOk result ((q : ℕ) → IsTrue (slot_ready q (map.get self.new name.now))) }
    {
        if let Err(error) = begin(&mut self.refs, &mut self.is_over, &mut self.past, alloc) {
            return Err(error);
        }
        self.refs.prepare(alloc, name)
    }

    /// A value from a position on, in room that was taken before.
    pub fn put(&mut self, position: u64, name: &RefName, value: Option<Name>)
        requires after { IsUpTo position (items_of (map.get self.old name.now)) }
        requires room { IsTrue (slot_ready position (map.get self.old name.now)) }
        ensures { PutsRef position name.now value self.old self.new }
    {
        self.refs.put(position, name, value);
    }

    /// Takes those references of updates out that name nothing. It takes no memory.
    pub fn trim(&mut self, position: u64, updates: &[RefUpdate])
        ensures { (x : List ℕ) → items_of (map.get self.new x) ≡ trimmed position updates.now x (items_of (map.get self.old x)) }
    {
        for update in updates {
            self.trim_one(position, &update.name);
        }
    }

    /// Drops what only positions before `to` need, and the references that were set aside. It takes no memory, and costs in
    /// proportion to what is there and to what was set aside.
    pub fn raise(&mut self, to: u64)
        ensures { Raises 0 to self.old self.new }
    {
        self.past.clear();
        if self.is_over {
            self.refs.clear();
            self.is_over = false;
        } else {
            self.refs.raise(0, to);
        }
    }

    /// Takes a reference out that names nothing.
    fn trim_one(&mut self, position: u64, name: &RefName)
        ensures { (x : List ℕ) → items_of (map.get self.new x) ≡ step_trim position (eq_by_cmp key_cmp x name.now) (items_of (map.get self.old x)) }
    {
        trim_slot(&mut self.refs, position, name);
    }

    /// The references whose names begin so, ascending by name, with what they name.
    pub fn list(&self, alloc: Global, position: u64, prefix: &[u8]) -> Result<RefList, NoMemory>
        ensures { IfOk result (λ l. l ≡ references (refs_since 0 position self.now) prefix.now) }
    {
        if self.is_over {
            return Ok(RefList::new(alloc));
        }
        self.refs.list(alloc, 0, position, prefix)
    }

    /// The least reference that stands in the folder of `name`, or in whose folder `name` stands, and that isn't gone.
    pub fn clash(&self, position: u64, name: &RefName, gone: &Names2) -> Option<&RefName>
        ensures { option_copied result ≡ find (λ other. clashes name.now other && not (list_any (same_name other) gone.now)) (map.keys (refs_since 0 position self.now)) }
    {
        if self.is_over {
            return None;
        }
        self.refs.clash(0, position, name, gone)
    }
}

/// Where the references are of an earlier life, sets them aside and begins with none.
fn begin(
    refs: &mut Slots,
    is_over: &mut bool,
    past: &mut Vec<Slots>,
    alloc: Global,
) -> Result<(), NoMemory>
    ensures ok { OnOk result ((is_over.new ≡ false) × (refs.new ≡ if is_over.old then map.empty else refs.old)) }
    ensures err { OnErr result ((is_over.new ≡ is_over.old) × (refs.new ≡ refs.old)) }
{
    if !*is_over {
        return Ok(());
    }
    if past.reserve(1).is_err() {
        return Err(NoMemory);
    }
    let over = mem::replace(refs, Slots::new(alloc));
    *is_over = false;
    match past.push(over) {
        Ok(()) => Ok(()),
        Err(_) => unreachable!(),
    }
}

/// Takes a reference out that names nothing.
fn trim_slot(refs: &mut Slots, position: u64, name: &RefName)
    ensures { (x : List ℕ) → items_of (map.get refs.new x) ≡ step_trim position (eq_by_cmp key_cmp x name.now) (items_of (map.get refs.old x)) }
{
    if refs.value(0, position, name).is_none() {
        refs.remove(name);
    }
}
