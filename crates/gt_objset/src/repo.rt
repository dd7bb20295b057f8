ghost use Rattle.std.specs.Prelude.{◌≡◌, ◌≤◌, ℕ, List, is_some, filter, OnOk, IfOk, IsTrue, false, None, []};
ghost use Rattle.std.specs.FinMap as map;
ghost use Rattle.std.specs.BTreeMap as tree;
ghost use Rattle.std.specs.Option.{option_copied, option_or, unwrap_or};
ghost use Rattle.gt_model.specs.Contents.{key_cmp};
ghost use Rattle.gt_versions.specs.Versions.{last_at, IsUpTo, ready};
ghost use Rattle.gt_versions.specs.Lives.{value_since};
ghost use Rattle.gt_objset.specs.Places.{pool_in, last_put};
ghost use Rattle.gt_objset.specs.Track.{Track, life_at, is_pool_at, head_in_track, own_in_track, taken, items_of, put_if, IsTrackUpTo, HasRoom, Puts, IsRoomier};
ghost use Rattle.gt_objset.specs.Moved.{Moves};
ghost use Rattle.gt_objset.specs.Raised.{RaisesTrack, has_versions};

use crate::Place;
use crate::head::HeadChange;
use crate::plan::Puts;
use crate::raising::{raise_since, raise_slots};
use crate::slots::{PlaceVersions, move_slot, put_slots, reserve_slots};
use gt_list::{ListOf, NoMemory};
use gt_name::{Name, Names, RepoPath};
use gt_versions::Versions;
use std::alloc::Global;
use std::collections::BTreeMap;
use std::marker::Model;

/// One repository at each position: since when it is there, whether it is a pool, the path of its pool, and the places of
/// its own objects. What was given before it began anew doesn't count any more.
#[derive(Drop)]
pub struct RepoObjects {
    lives: Versions<bool>,
    kinds: Versions<Option<bool>>,
    pools: Versions<Option<RepoPath>>,
    objects: PlaceVersions,
}

impl Model for RepoObjects {
    ghost use Rattle.std.specs.FinMap as map;
    ghost use Rattle.gt_objset.specs.Track.{Track, track_code};

    ghost Value = { Track };

    ghost coded = { track_code };

    ghost view = { λ r. record { lives = r.lives; kinds = r.kinds; pools = r.pools; objects = map.from_entries r.objects.entries } };
}

impl RepoObjects {
    /// A repository that was never there. It takes no memory.
    pub fn new(alloc: Global) -> RepoObjects
        ensures lives { result.lives.0 ≡ [] }
        ensures kinds { result.kinds.0 ≡ [] }
        ensures pools { result.pools.0 ≡ [] }
        ensures objects { result.objects ≡ map.empty }
    {
        RepoObjects {
            lives: Versions::new(alloc),
            kinds: Versions::new(alloc),
            pools: Versions::new(alloc),
            objects: BTreeMap::new(alloc),
        }
    }

    /// Since when it is there, at a position. None where it isn't.
    pub fn life(&self, at: u64) -> Option<u64>
        ensures { result ≡ life_at self.now at }
    {
        self.lives.lives_since(at)
    }

    /// Whether it is there at a position.
    pub fn is_there(&self, at: u64) -> bool
        ensures { result ≡ is_some (head_in_track self.now at) }
    {
        match self.life(at) {
            None => false,
            Some(_) => true,
        }
    }

    /// Whether it is there and is a pool, at a position.
    pub fn is_pool(&self, at: u64) -> bool
        ensures { result ≡ is_pool_at self.now at }
    {
        match self.life(at) {
            None => false,
            Some(start) => self.kinds.value_since(start, at) == Some(&true),
        }
    }

    /// The path of its pool at a position. None where it isn't there, or has no pool.
    pub fn pool(&self, at: u64) -> Option<&RepoPath>
        ensures { option_copied result ≡ pool_in (head_in_track self.now at) }
    {
        match self.life(at) {
            None => None,
            Some(start) => self.pools.value_since(start, at),
        }
    }

    /// The place of an own object at a position. None where the repository isn't there, or the object isn't its own.
    pub fn own(&self, at: u64, name: &Name) -> Option<Place>
        ensures { result ≡ own_in_track self.now at name.now }
    {
        match self.life(at) {
            None => None,
            Some(start) => version_at(&self.objects, start, at, name),
        }
    }

    /// The names of its own objects at a position, ascending.
    pub fn own_names(&self, alloc: Global, at: u64) -> Result<Names, NoMemory>
        ensures { IfOk result (λ names. names ≡ filter (λ x. is_some (own_in_track self.now at x)) (map.keys self.now.objects)) }
    {
        let mut names = ListOf::new(alloc);
        for name in self.objects.keys() {
            if self.own(at, name).is_some() {
                if let Err(error) = names.push(*name) {
                    return Err(error);
                }
            }
        }
        Ok(names)
    }

    /// What it sees of its pool and doesn't own, at a position.
    pub fn taken(&self, alloc: Global, at: u64, pool: &RepoObjects) -> Result<Puts, NoMemory>
        ensures { IfOk result (λ puts. (x : List ℕ) → unwrap_or (last_put puts x None) (own_in_track self.now at x) ≡ option_or (own_in_track self.now at x) (own_in_track pool.now at x)) }
    {
        let mut puts = ListOf::new(alloc);
        for name in pool.objects.keys() {
            if let Some(place) = self.taken_place(at, pool, name) {
                if let Err(error) = puts.push((*name, Some(place))) {
                    return Err(error);
                }
            }
        }
        Ok(puts)
    }

    fn taken_place(&self, at: u64, pool: &RepoObjects, name: &Name) -> Option<Place>
        ensures { result ≡ taken (own_in_track self.now at name.now) (own_in_track pool.now at name.now) }
    {
        match self.own(at, name) {
            Some(_) => None,
            None => pool.own(at, name),
        }
    }

    /// Takes room for a further change, of these objects.
    pub fn reserve(&mut self, alloc: Global, puts: &[(Name, Option<Place>)]) -> Result<(), NoMemory>
        ensures same { IsRoomier self.old self.new }
        ensures ok { OnOk result ((q : ℕ) → HasRoom q puts.now self.new) }
    {
        if let Err(error) = self.lives.reserve() {
            return Err(error);
        }
        if let Err(error) = self.kinds.reserve() {
            return Err(error);
        }
        if let Err(error) = self.pools.reserve() {
            return Err(error);
        }
        reserve_slots(&mut self.objects, alloc, puts)
    }

    /// Changes it from a position on, in room that was taken before.
    pub fn put(&mut self, position: u64, head: HeadChange, puts: &[(Name, Option<Place>)])
        requires after { IsTrackUpTo position self.old }
        requires room { HasRoom position puts.now self.old }
        ensures { Puts position head puts.now self.old self.new }
    {
        put_if(&mut self.lives, position, head.life);
        put_if(&mut self.kinds, position, head.kind);
        put_if(&mut self.pools, position, head.pool);
        put_slots(&mut self.objects, position, puts);
    }

    /// The record of an own object stands elsewhere from a position on, where a place of it begins, for as long as it is own.
    pub fn repoint(&mut self, floor: u64, at: u64, name: &Name, place: Place)
        requires { floor ≤ at }
        ensures { Moves floor at name.now place self.old self.new }
    {
        move_slot(&mut self.objects, &self.lives, floor, at, name, place);
    }

    /// Whether it was ever there.
    pub fn was_there(&self) -> bool
        ensures { result ≡ has_versions self.now.lives.0 }
    {
        !self.lives.is_empty()
    }

    /// Drops what only positions before this one needed. It takes no memory.
    pub fn raise(&mut self, to: u64)
        ensures { RaisesTrack to self.old self.new }
    {
        let life = self.lives.lives_since(to);
        self.lives.law_order();
        self.lives.raise_lives(to);
        raise_since(&mut self.kinds, life, to);
        raise_since(&mut self.pools, life, to);
        raise_slots(&mut self.objects, life, to);
    }
}

/// Puts a value from a position on, where there is one.
fn put_if<V: Drop>(versions: &mut Versions<V>, position: u64, value: Option<V>)
    requires after { IsUpTo position versions.old.0 }
    requires room { IsTrue (ready position versions.old) }
    ensures { versions.new.0 ≡ put_if position value versions.old.0 }
{
    if let Some(value) = value {
        versions.put(position, value);
    }
}

fn version_at(objects: &PlaceVersions, start: u64, at: u64, name: &Name) -> Option<Place>
    ensures { result ≡ value_since start (last_at (items_of (tree.get key_cmp objects.now name.now)) at None) }
{
    match objects.get(name) {
        None => None,
        Some(versions) => versions.value_since(start, at).copied(),
    }
}
