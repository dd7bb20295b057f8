ghost use Rattle.std.specs.Prelude.{◌≡◌, ◌<◌, ◌≤◌, ℕ, List, Option, [], None, false, IsTrue, IsSome, OnOk, length, slice_index_or};
ghost use Rattle.std.specs.FinMap as map;
ghost use Rattle.std.specs.Ordering.{eq_by_cmp};
ghost use Rattle.gt_model.specs.Contents.{key_cmp};
ghost use Rattle.gt_versions.specs.Versions.{IsUpTo, ready, put_at};
ghost use Rattle.gt_versions.proofs.Keys.{at_key};
ghost use Rattle.gt_slots.specs.Slots.{items_of, slot_ready, IsRoomier};
ghost use Rattle.gt_slots.specs.Pages.{all, page, IsWell, IsAt, Edits};

use crate::finding::{SlotIndex, find};
use crate::inserting::insert_new;
use crate::page::Page;
use gt_list::NoMemory;
use gt_name::{Name, RefName};
use gt_versions::Versions;
use std::alloc::Global;

/// Gives a reference a value from a position on, in room that was taken before.
pub(crate) fn put_slot(pages: &mut Vec<Page>, position: u64, name: &RefName, value: Option<Name>)
    requires well { IsWell pages.old.items }
    requires after { IsUpTo position (items_of (at_key (all pages.old.items) name.now)) }
    requires room { IsTrue (slot_ready position (at_key (all pages.old.items) name.now)) }
    ensures well { IsWell pages.new.items }
    ensures here { items_of (at_key (all pages.new.items) name.now) ≡ put_at position value (items_of (at_key (all pages.old.items) name.now)) }
    ensures some { IsSome (at_key (all pages.new.items) name.now) }
    ensures others { (x : List ℕ) → eq_by_cmp key_cmp name.now x ≡ false → at_key (all pages.new.items) x ≡ at_key (all pages.old.items) x }
{
    let Some(place) = find(pages.as_slice(), name.bytes()) else {
        return;
    };
    put_at(pages, place, position, value);
}

fn put_at(pages: &mut Vec<Page>, place: SlotIndex, position: u64, value: Option<Name>)
    requires page_fits { place.page < length pages.old.items }
    requires slot_fits { place.slot < length (page pages.old.items place.page) }
    requires after { (d : List ℕ × (List (ℕ × Option (List ℕ)) × ℕ)) → IsUpTo position (slice_index_or (page pages.old.items place.page) place.slot d).1.0 }
    requires room { (d : List ℕ × (List (ℕ × Option (List ℕ)) × ℕ)) → IsTrue (ready position (slice_index_or (page pages.old.items place.page) place.slot d).1) }
    ensures same { Edits place.page place.slot pages.old.items pages.new.items }
    ensures items { (d : List ℕ × (List (ℕ × Option (List ℕ)) × ℕ)) → (slice_index_or (page pages.new.items place.page) place.slot d).1.0 ≡ put_at position value (slice_index_or (page pages.old.items place.page) place.slot d).1.0 }
{
    let Some(found) = pages.get_mut(place.page) else {
        return;
    };
    found.put(place.slot, position, value);
}

/// Takes room for a further value of a reference.
pub(crate) fn prepare_slot(
    pages: &mut Vec<Page>,
    alloc: Global,
    name: &RefName,
) -> Result<(), NoMemory>
    requires { IsWell pages.old.items }
    ensures well { IsWell pages.new.items }
    ensures same { IsRoomier (map.from_entries (all pages.old.items)) (map.from_entries (all pages.new.items)) }
    ensures ok { OnOk result ((q : ℕ) → IsTrue (slot_ready q (at_key (all pages.new.items) name.now))) }
{
    match find(pages.as_slice(), name.bytes()) {
        Some(place) => grow_at(pages, place),
        None => add_slot(pages, alloc, name),
    }
}

/// Takes room for a further value of the reference at a place.
fn grow_at(pages: &mut Vec<Page>, place: SlotIndex) -> Result<(), NoMemory>
    requires page_fits { place.page < length pages.old.items }
    requires slot_fits { place.slot < length (page pages.old.items place.page) }
    ensures same { Edits place.page place.slot pages.old.items pages.new.items }
    ensures items { (d : List ℕ × (List (ℕ × Option (List ℕ)) × ℕ)) → (slice_index_or (page pages.new.items place.page) place.slot d).1.0 ≡ (slice_index_or (page pages.old.items place.page) place.slot d).1.0 }
    ensures kept { (d : List ℕ × (List (ℕ × Option (List ℕ)) × ℕ)) → (slice_index_or (page pages.old.items place.page) place.slot d).1.1 ≤ (slice_index_or (page pages.new.items place.page) place.slot d).1.1 }
    ensures ok { OnOk result ((d : List ℕ × (List (ℕ × Option (List ℕ)) × ℕ)) → 0 < (slice_index_or (page pages.new.items place.page) place.slot d).1.1) }
{
    let Some(found) = pages.get_mut(place.page) else {
        return Ok(());
    };
    found.grow(place.slot)
}

/// Adds a reference without a value, and takes room for one.
fn add_slot(pages: &mut Vec<Page>, alloc: Global, name: &RefName) -> Result<(), NoMemory>
    requires well { IsWell pages.old.items }
    requires new { at_key (all pages.old.items) name.now ≡ None }
    ensures well { IsWell pages.new.items }
    ensures here { items_of (at_key (all pages.new.items) name.now) ≡ [] }
    ensures ok { OnOk result ((q : ℕ) → IsTrue (slot_ready q (at_key (all pages.new.items) name.now))) }
    ensures others { (x : List ℕ) → eq_by_cmp key_cmp name.now x ≡ false → at_key (all pages.new.items) x ≡ at_key (all pages.old.items) x }
{
    let mut versions = Versions::new(alloc);
    if let Err(error) = versions.reserve() {
        return Err(error);
    }
    let Ok(key) = name.clone() else {
        return Err(NoMemory);
    };
    insert_new(pages, alloc, (key, versions))
}
