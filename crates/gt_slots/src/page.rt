ghost use Rattle.std.specs.Prelude.{◌≡◌, ◌≤◌, ◌<◌, ◌∷◌, [], ◌++◌, ℕ, List, Option, true, false, not, nat_eq, T, IsTrue, OnOk, OnErr, IfOk, length, take, drop, slice_get, slice_set, slice_index_or};
ghost use Rattle.std.specs.List.{insert, remove};
ghost use Rattle.std.specs.List.Sorted.{IsPartitionPoint};
ghost use Rattle.std.specs.FinMap.{is_sorted};
ghost use Rattle.std.specs.Option.{option_copied};
ghost use Rattle.gt_model.specs.Contents.{key_cmp};
ghost use Rattle.gt_versions.specs.Versions.{IsUpTo, ready, put_at};
ghost use Rattle.gt_slots.specs.Pages.{probe, is_before, ends_before, Replaces};
ghost use Rattle.gt_slots.specs.Raised.{raised_page, AreAscending};

use crate::probe::is_before;
use crate::raising::raise_slots;
use gt_list::NoMemory;
use gt_name::{Name, RefName};
use gt_versions::Versions;
use std::alloc::Global;
use std::marker::Model;

/// A reference with its values.
pub(crate) type Slot = (RefName, Versions<Option<Name>>);

/// Some references that follow each other.
#[derive(Drop)]
pub(crate) struct Page {
    slots: Vec<Slot>,
}

impl Model for Page {
    ghost use Rattle.std.specs.Prelude.{List, ℕ, Option};
    ghost use Rattle.gt_slots.specs.Slots.{page_code};

    ghost Value = { List (List ℕ × (List (ℕ × Option (List ℕ)) × ℕ)) };

    ghost coded = { page_code };

    ghost view = { λ p. p.slots.items };
}

impl Page {
    /// A page of one reference.
    pub(crate) fn of_one(alloc: Global, slot: Slot) -> Result<Page, NoMemory>
        ensures { IfOk result (λ p. p ≡ slot ∷ []) }
    {
        let mut slots = Vec::new(alloc);
        match slots.push(slot) {
            Ok(()) => Ok(Page { slots }),
            Err(_) => Err(NoMemory),
        }
    }

    pub(crate) fn slots(&self) -> &[Slot]
        ensures { result.now ≡ self.now }
    {
        self.slots.as_slice()
    }

    pub(crate) fn len(&self) -> usize
        ensures { result ≡ length self.now }
    {
        self.slots.as_slice().len()
    }

    /// An empty page. It takes no memory.
    pub(crate) fn new(alloc: Global) -> Page
        ensures { result ≡ [] }
    {
        Page {
            slots: Vec::new(alloc),
        }
    }

    /// A value of the reference of this index from a position on, in room that was taken before.
    pub(crate) fn put(&mut self, at: usize, position: u64, value: Option<Name>)
        requires fits { at < length self.old }
        requires after { (d : List ℕ × (List (ℕ × Option (List ℕ)) × ℕ)) → IsUpTo position (slice_index_or self.old at d).1.0 }
        requires room { (d : List ℕ × (List (ℕ × Option (List ℕ)) × ℕ)) → IsTrue (ready position (slice_index_or self.old at d).1) }
        ensures same { Replaces at self.old self.new }
        ensures items { (d : List ℕ × (List (ℕ × Option (List ℕ)) × ℕ)) → (slice_index_or self.new at d).1.0 ≡ put_at position value (slice_index_or self.old at d).1.0 }
    {
        let Some(slot) = self.slots.get_mut(at) else {
            return;
        };
        slot.1.put(position, value);
    }

    /// Takes room for a further value of the reference of this index.
    pub(crate) fn grow(&mut self, at: usize) -> Result<(), NoMemory>
        requires { at < length self.old }
        ensures same { Replaces at self.old self.new }
        ensures items { (d : List ℕ × (List (ℕ × Option (List ℕ)) × ℕ)) → (slice_index_or self.new at d).1.0 ≡ (slice_index_or self.old at d).1.0 }
        ensures kept { (d : List ℕ × (List (ℕ × Option (List ℕ)) × ℕ)) → (slice_index_or self.old at d).1.1 ≤ (slice_index_or self.new at d).1.1 }
        ensures ok { OnOk result ((d : List ℕ × (List (ℕ × Option (List ℕ)) × ℕ)) → 0 < (slice_index_or self.new at d).1.1) }
    {
        let Some(slot) = self.slots.get_mut(at) else {
            return Ok(());
        };
        slot.1.reserve()
    }

    /// Adds a reference before the one of this index.
    pub(crate) fn insert(&mut self, at: usize, slot: Slot) -> Result<(), NoMemory>
        requires { at ≤ length self.old }
        ensures ok { OnOk result (self.new ≡ insert self.old at slot) }
        ensures err { OnErr result (self.new ≡ self.old) }
    {
        // for the prover
        let _slots = self.slots.as_slice();
        match self.slots.insert(at, slot) {
            Ok(()) => Ok(()),
            Err(_) => Err(NoMemory),
        }
    }

    /// Takes out the reference of this index.
    pub(crate) fn remove(&mut self, at: usize)
        requires { at < length self.old }
        ensures { self.new ≡ remove self.old at }
    {
        // for the prover
        let _slots = self.slots.as_slice();
        let _slot = self.slots.remove(at);
    }

    /// Raises the versions of each reference, and takes out each that has none left. Whether a reference is left.
    pub(crate) fn raise(&mut self, start: u64, to: u64) -> bool
        ensures slots { self.new ≡ raised_page start to self.old }
        ensures left { result ≡ not (nat_eq (length (raised_page start to self.old)) 0) }
        ensures ascending { AreAscending self.old }
    {
        raise_slots(&mut self.slots, start, to);
        !self.slots.as_slice().is_empty()
    }

    /// Takes the references from this index on into a page of their own.
    pub(crate) fn split(&mut self, at: usize) -> Result<Page, NoMemory>
        requires { at ≤ length self.old }
        ensures ok { IfOk result (λ p. (self.new ≡ take at self.old) × (p ≡ drop at self.old)) }
        ensures err { OnErr result (self.new ≡ self.old) }
    {
        // for the prover
        let _slots = self.slots.as_slice();
        match self.slots.split_off(at) {
            Ok(slots) => Ok(Page { slots }),
            Err(_) => Err(NoMemory),
        }
    }
}

/// Whether the last reference is before a text.
pub(crate) fn ends_before(slots: &[Slot], text: &[u8], slash: bool) -> bool
    ensures { result ≡ ends_before (probe text.now slash) slots.now }
{
    match slots.last() {
        None => true,
        Some(slot) => is_before(slot.0.bytes(), text, slash),
    }
}

/// How many references are before a text.
pub(crate) fn count_before(slots: &[Slot], text: &[u8], slash: bool) -> usize
    requires { T (is_sorted key_cmp slots.now) }
    ensures bound { result ≤ length slots.now }
    ensures parts { IsPartitionPoint (λ e. is_before e.0 (probe text.now slash) ≡ true) (λ e. is_before e.0 (probe text.now slash) ≡ false) slots.now result }
{
    let mut low = 0;
    let mut high = slots.len();
    'halves: while low < high {
        let middle = low + (high - low) / 2;
        if is_before(slots[middle].0.bytes(), text, slash) {
            low = middle + 1;
        } else {
            high = middle;
        }
    }
    low
}
