ghost use Rattle.std.specs.Prelude.{◌≡◌, ℕ, IsTrue, IfOk, OnOk, None, not, ◌&&◌, find, nat_eq, length};
ghost use Rattle.std.specs.FinMap as map;
ghost use Rattle.std.specs.List.{list_any};
ghost use Rattle.std.specs.Option.{option_copied};
ghost use Rattle.gt_model.specs.Verdicts.{clashes, same_name};
ghost use Rattle.gt_versions.specs.Versions.{last_at, IsUpTo};
ghost use Rattle.gt_versions.specs.Lives.{value_since};
ghost use Rattle.gt_model.specs.Machine.{references};
ghost use Rattle.gt_slots.specs.Present.{refs_since};
ghost use Rattle.gt_slots.specs.Raised.{Raises};
ghost use Rattle.gt_slots.specs.Slots.{items_of, slot_ready, PutsRef, IsRoomier};

use crate::clashing::clash_in;
use crate::editing::{prepare_slot, put_slot};
use crate::finding::{find_place, look};
use crate::listing::list_from;
use crate::page::Page;
use crate::raising::raise_pages;
use crate::removing::remove_slot;
use gt_list::NoMemory;
use gt_model::RefList;
use gt_name::{Name, Names2, RefName};
use std::alloc::Global;
use std::marker::Model;

/// The references of one repository, each with its values from positions on: none where it was deleted.
#[derive(Drop)]
pub struct Slots {
    pages: Vec<Page>,
}

impl Model for Slots {
    ghost use Rattle.std.specs.Prelude.{List, ℕ, Option};
    ghost use Rattle.std.specs.FinMap as map;
    ghost use Rattle.std.specs.FinMap.{FinMap};
    ghost use Rattle.gt_model.specs.Contents.{key_cmp};
    ghost use Rattle.gt_slots.specs.Slots.{slots_code};
    ghost use Rattle.gt_slots.specs.Pages.{all, IsWell};

    ghost Value = { FinMap key_cmp (List (ℕ × Option (List ℕ)) × ℕ) };

    ghost coded = { slots_code };

    ghost invariant = { λ s. IsWell s.pages.items };

    ghost view = { λ s. map.from_entries (all s.pages.items) };
}

impl Slots {
    /// No reference. It takes no memory.
    pub fn new(alloc: Global) -> Slots
        ensures { result ≡ map.empty }
    {
        Slots {
            pages: Vec::new(alloc),
        }
    }

    /// Whether there is no reference.
    pub fn is_empty(&self) -> bool
        ensures { result ≡ nat_eq (length (map.entries self.now)) 0 }
    {
        self.pages.as_slice().is_empty()
    }

    /// What a reference names at a position, where that was given from `start` on.
    pub fn value(&self, start: u64, position: u64, name: &RefName) -> Option<Name>
        ensures { result ≡ value_since start (last_at (items_of (map.get self.now name.now)) position None) }
    {
        match look(self.pages.as_slice(), name.bytes()) {
            None => None,
            Some(slot) => slot.1.value_since(start, position).copied(),
        }
    }

    /// A value from a position on, in room that was taken before.
    pub fn put(&mut self, position: u64, name: &RefName, value: Option<Name>)
        requires after { IsUpTo position (items_of (map.get self.old name.now)) }
        requires room { IsTrue (slot_ready position (map.get self.old name.now)) }
        ensures { PutsRef position name.now value self.old self.new }
    {
        put_slot(&mut self.pages, position, name, value);
    }

    /// Takes room for a further value of a reference.
    pub fn prepare(&mut self, alloc: Global, name: &RefName) -> Result<(), NoMemory>
        ensures same { IsRoomier self.old self.new }
        ensures ok { OnOk result ((q : ℕ) → IsTrue (slot_ready q (map.get self.new name.now))) }
    {
        prepare_slot(&mut self.pages, alloc, name)
    }

    /// Takes a reference out, with all its values. It takes no memory.
    pub fn remove(&mut self, name: &RefName)
        ensures { self.new ≡ map.remove self.old name.now }
    {
        remove_slot(&mut self.pages, name);
    }

    /// Takes out every reference. It takes no memory, and costs in proportion to all values of the references.
    pub fn clear(&mut self)
        ensures { self.new ≡ map.empty }
    {
        self.pages.clear();
    }

    /// Drops what only positions before `to` need, and what was given before `start`: of the values of each reference at or
    /// before `to` the last one stays, where it counts and names something, and a reference that has none left is taken out.
    /// It takes no memory, and costs in proportion to all values of the references. Room that was taken for a reference that
    /// has no value left goes with it, so call it only where nothing is prepared.
    pub fn raise(&mut self, start: u64, to: u64)
        ensures { Raises start to self.old self.new }
    {
        raise_pages(&mut self.pages, start, to);
    }

    /// The references whose names begin so, ascending by name: what each names at a position, where that was given from
    /// `start` on.
    pub fn list(
        &self,
        alloc: Global,
        start: u64,
        position: u64,
        prefix: &[u8],
    ) -> Result<RefList, NoMemory>
        ensures { IfOk result (λ l. l ≡ references (refs_since start position self.now) prefix.now) }
    {
        let pages = self.pages.as_slice();
        let place = find_place(pages, prefix, false);
        let mut out = RefList::new(alloc);
        if let Err(error) = list_from(&mut out, pages, place, prefix, start, position) {
            return Err(error);
        }
        Ok(out)
    }

    /// The least reference that stands in the folder of `name`, or in whose folder `name` stands, and that isn't gone: of
    /// those that name something at a position, where that was given from `start` on.
    pub fn clash(
        &self,
        start: u64,
        position: u64,
        name: &RefName,
        gone: &Names2,
    ) -> Option<&RefName>
        ensures { option_copied result ≡ find (λ other. clashes name.now other && not (list_any (same_name other) gone.now)) (map.keys (refs_since start position self.now)) }
    {
        clash_in(self.pages.as_slice(), name.bytes(), start, position, gone)
    }
}
