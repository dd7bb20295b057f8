// The versions of the places of one repository's objects, by name.
ghost use Rattle.std.specs.Prelude.{◌≡◌, ◌≤◌, ℕ, List, false, IsTrue, IsSome, OnOk, None, []};
ghost use Rattle.std.specs.BTreeMap as tree;
ghost use Rattle.std.specs.Ordering.{eq_by_cmp};
ghost use Rattle.gt_model.specs.Contents.{key_cmp};
ghost use Rattle.gt_versions.specs.Versions.{IsUpTo, put_at};
ghost use Rattle.gt_versions.specs.Runs.{SetsRun};
ghost use Rattle.gt_objset.specs.Track.{items_of, slot_ready, HasSlots, PutsSlots, AreRoomier};

use crate::Place;
use gt_list::NoMemory;
use gt_name::Name;
use gt_versions::Versions;
use std::alloc::Global;
use std::collections::BTreeMap;

/// The versions of each object's place.
pub type PlaceVersions = BTreeMap<Name, Versions<Option<Place>>>;

/// Puts places from a position on, in room that was taken before.
pub fn put_slots(slots: &mut PlaceVersions, position: u64, puts: &[(Name, Option<Place>)])
    requires after { (x : List ℕ) → IsUpTo position (items_of (tree.get key_cmp slots.old x)) }
    requires room { HasSlots position (λ x. tree.get key_cmp slots.old x) puts.now }
    ensures { PutsSlots position puts.now (λ x. tree.get key_cmp slots.old x) (λ x. tree.get key_cmp slots.new x) }
{
    for put in puts {
        put_slot(slots, position, &put.0, put.1);
    }
}

/// Takes room for a further version of each name.
pub fn reserve_slots(
    slots: &mut PlaceVersions,
    alloc: Global,
    puts: &[(Name, Option<Place>)],
) -> Result<(), NoMemory>
    ensures same { AreRoomier (λ x. tree.get key_cmp slots.old x) (λ x. tree.get key_cmp slots.new x) }
    ensures ok { OnOk result ((q : ℕ) → HasSlots q (λ x. tree.get key_cmp slots.new x) puts.now) }
{
    for put in puts {
        if let Err(error) = reserve_slot(slots, alloc, &put.0) {
            return Err(error);
        }
    }
    Ok(())
}

/// The place of an object is this one from a position on, where a place begins, for as long as it has one. What it had
/// before its repository began anew doesn't count.
pub fn move_slot(
    slots: &mut PlaceVersions,
    lives: &Versions<bool>,
    floor: u64,
    at: u64,
    name: &Name,
    place: Place,
)
    requires { floor ≤ at }
    ensures here { SetsRun floor at place lives.now.0 (items_of (tree.get key_cmp slots.old name.now)) (items_of (tree.get key_cmp slots.new name.now)) }
    ensures others { (x : List ℕ) → eq_by_cmp key_cmp name.now x ≡ false → tree.get key_cmp slots.new x ≡ tree.get key_cmp slots.old x }
{
    let Some(versions) = slots.get_mut(name) else {
        return;
    };
    versions.set_run(lives, floor, at, place);
}

fn put_slot(slots: &mut PlaceVersions, position: u64, name: &Name, place: Option<Place>)
    requires after { IsUpTo position (items_of (tree.get key_cmp slots.old name.now)) }
    requires room { IsTrue (slot_ready position (tree.get key_cmp slots.old name.now)) }
    ensures here { items_of (tree.get key_cmp slots.new name.now) ≡ put_at position place (items_of (tree.get key_cmp slots.old name.now)) }
    ensures some { IsSome (tree.get key_cmp slots.new name.now) }
    ensures others { (x : List ℕ) → eq_by_cmp key_cmp name.now x ≡ false → tree.get key_cmp slots.new x ≡ tree.get key_cmp slots.old x }
{
    let Some(versions) = slots.get_mut(name) else {
        return;
    };
    versions.put(position, place);
}

fn reserve_slot(slots: &mut PlaceVersions, alloc: Global, name: &Name) -> Result<(), NoMemory>
    ensures same { AreRoomier (λ x. tree.get key_cmp slots.old x) (λ x. tree.get key_cmp slots.new x) }
    ensures ok { OnOk result ((q : ℕ) → IsTrue (slot_ready q (tree.get key_cmp slots.new name.now))) }
{
    if slots.contains_key(name) {
        grow_slot(slots, name)
    } else {
        add_slot(slots, alloc, name)
    }
}

fn grow_slot(slots: &mut PlaceVersions, name: &Name) -> Result<(), NoMemory>
    requires { IsSome (tree.get key_cmp slots.old name.now) }
    ensures here { items_of (tree.get key_cmp slots.new name.now) ≡ items_of (tree.get key_cmp slots.old name.now) }
    ensures kept { (q : ℕ) → IsTrue (slot_ready q (tree.get key_cmp slots.old name.now)) → IsTrue (slot_ready q (tree.get key_cmp slots.new name.now)) }
    ensures ok { OnOk result ((q : ℕ) → IsTrue (slot_ready q (tree.get key_cmp slots.new name.now))) }
    ensures others { (x : List ℕ) → eq_by_cmp key_cmp name.now x ≡ false → tree.get key_cmp slots.new x ≡ tree.get key_cmp slots.old x }
{
    let Some(versions) = slots.get_mut(name) else {
        return Ok(());
    };
    versions.reserve()
}

fn add_slot(slots: &mut PlaceVersions, alloc: Global, name: &Name) -> Result<(), NoMemory>
    requires { tree.get key_cmp slots.old name.now ≡ None }
    ensures here { items_of (tree.get key_cmp slots.new name.now) ≡ [] }
    ensures ok { OnOk result ((q : ℕ) → IsTrue (slot_ready q (tree.get key_cmp slots.new name.now))) }
    ensures others { (x : List ℕ) → eq_by_cmp key_cmp name.now x ≡ false → tree.get key_cmp slots.new x ≡ tree.get key_cmp slots.old x }
{
    let mut versions = Versions::new(alloc);
    if let Err(error) = versions.reserve() {
        return Err(error);
    }
    match slots.insert(*name, versions) {
        Ok(_) => Ok(()),
        Err(_) => Err(NoMemory),
    }
}
