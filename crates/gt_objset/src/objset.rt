ghost use Rattle.std.specs.Prelude.{◌≡◌, ◌+◌, ◌≤◌, ℕ, List, [], Option, None, is_some, IsSome, IfOk, OnOk, OnErr};
ghost use Rattle.std.specs.Option.{option_copied};
ghost use Rattle.gt_model.specs.declared.entry.Entry.{Entry};
ghost use Rattle.gt_model.specs.Contents.{Content, nothing, has_repo, is_pool, pool_of, is_visible, least_member, at as content_at};
ghost use Rattle.gt_objset.specs.declared.place.Place.{Place};
ghost use Rattle.gt_objset.specs.Places.{head_in, pool_in, seen, places_at};
ghost use Rattle.gt_objset.specs.Track.{is_pool_of};
ghost use Rattle.gt_objset.specs.Table.{head_at, own_at, place_at, Adds, IsSameTable, IsPrepared};
ghost use Rattle.gt_objset.specs.Agree.{Agrees, ArePlacedBy};
ghost use Rattle.gt_objset.specs.Seeds.{SeedsRepo, SeedsObject};
ghost use Rattle.gt_objset.specs.Moved.{Repoints};
ghost use Rattle.gt_objset.specs.Raised.{Raises, IsLean};
ghost use Rattle.gt_objset.specs.Lists.{own_names, members, all_paths, visible_names};

use crate::Place;
use crate::head::{HeadChange, head_change};
use crate::in_pool::{least_in_pool, paths_in_pool};
use crate::listing::paths_there;
use crate::members::{Members, keep_members, note, note_seed};
use crate::merging::in_one;
use crate::plan::puts_of;
use crate::raising::raise_repos;
use crate::repos::{Repos, put_repo, repoint_repo, reserve_repo};
use crate::seeding::{seed_puts, seed_repo};
use gt_list::{ListOf, NoMemory};
use gt_model::Entry;
use gt_name::{Name, Names, Paths, RepoPath};
use std::alloc::Global;
use std::collections::BTreeMap;
use std::marker::Model;
use std::mem;

/// The objects of all repositories at each position from the floor to the front, and where their records stand.
#[derive(Drop)]
pub struct ObjSet {
    floor: u64,
    front: u64,
    repos: Repos,
    members: Members,
    head: HeadChange,
    puts: ListOf<(Name, Option<Place>)>,
}

impl Model for ObjSet {
    ghost use Rattle.std.specs.FinMap as map;
    ghost use Rattle.gt_objset.specs.Table.{Table, table_code};
    ghost use Rattle.gt_objset.specs.Kept.{IsKept};

    ghost Value = { Table };

    ghost coded = { table_code };

    ghost invariant = { λ t. IsKept t.floor t.front (map.from_entries t.members.entries) (map.from_entries t.repos.entries) };

    ghost view = { λ t. record { floor = t.floor; front = t.front; repos = map.from_entries t.repos.entries; members = map.from_entries t.members.entries; head = t.head; puts = t.puts } };
}

impl ObjSet {
    /// The empty content, at a position from which on it answers.
    pub fn start(alloc: Global, floor: u64) -> Result<ObjSet, NoMemory>
        ensures floor { IfOk result (λ t. t.floor ≡ floor) }
        ensures empty { IfOk result (λ t. Agrees t nothing []) }
        ensures placed { IfOk result (λ t. ArePlacedBy t nothing (λ path x. None) []) }
    {
        Ok(ObjSet {
            floor,
            front: floor,
            repos: BTreeMap::new(alloc),
            members: BTreeMap::new(alloc),
            head: HeadChange::none(),
            puts: ListOf::new(alloc),
        })
    }

    /// Puts a repository into the content at the floor, before the first entry: whether it is a pool, and the path of its
    /// pool. It has nothing of its own yet.
    pub fn seed_repo(
        &mut self,
        alloc: Global,
        path: &RepoPath,
        is_pool: bool,
        pool: Option<&RepoPath>,
    ) -> Result<(), NoMemory>
        requires first { self.old.front ≡ self.old.floor }
        requires new { head_at self.old self.old.floor path.now ≡ None }
        ensures ok { OnOk result (SeedsRepo path.now (record { is_pool = is_pool; pool = option_copied pool.entry }) self.old self.new) }
        ensures err { OnErr result (IsSameTable self.old self.new) }
    {
        if let Err(error) = note_seed(&mut self.members, alloc, path, pool) {
            return Err(error);
        }
        seed_repo(&mut self.repos, alloc, self.floor, path, is_pool, pool)
    }

    /// Puts an own object of a repository into the content at the floor, before the first entry.
    pub fn seed(
        &mut self,
        alloc: Global,
        path: &RepoPath,
        name: &Name,
        place: Place,
    ) -> Result<(), NoMemory>
        requires first { self.old.front ≡ self.old.floor }
        requires there { IsSome (head_at self.old self.old.floor path.now) }
        ensures ok { OnOk result (SeedsObject path.now name.now place self.old self.new) }
        ensures err { OnErr result (IsSameTable self.old self.new) }
    {
        let puts = [(*name, Some(place))];
        seed_puts(&mut self.repos, alloc, self.floor, path, &puts)
    }

    /// The position from which on it answers.
    pub fn floor(&self) -> u64
        ensures { result ≡ self.now.floor }
    {
        self.floor
    }

    /// The position of the last entry.
    pub fn front(&self) -> u64
        ensures { result ≡ self.now.front }
    {
        self.front
    }

    /// Takes all the memory of adding an entry. No content changes, at any position. `NoMemory` is answered where memory runs
    /// out; an entry whose file would have 2^64 bytes or more, or a record of 2^32 or more, counts as such.
    pub fn prepare(&mut self, alloc: Global, entry: &Entry) -> Result<(), NoMemory>
        ensures same { IsSameTable self.old self.new }
        ensures ok { OnOk result (IsPrepared self.new entry.now) }
    {
        let head = match head_change(&entry.change) {
            Ok(head) => head,
            Err(error) => return Err(error),
        };
        let puts = match puts_of(&self.repos, alloc, self.front, entry) {
            Ok(puts) => puts,
            Err(error) => return Err(error),
        };
        if let Err(error) = note(&mut self.members, alloc, &entry.path, &head) {
            return Err(error);
        }
        if let Err(error) = reserve_repo(&mut self.repos, alloc, &entry.path, puts.as_slice()) {
            return Err(error);
        }
        self.head = head;
        self.puts = puts;
        Ok(())
    }

    /// Adds the entry that was prepared last, behind the front. It takes no memory. An added record stands from then on in
    /// the file of kind 4 with the entry's position as its number, where the entry's spelling has it.
    pub fn with(&mut self, entry: &Entry)
        requires next { entry.now.position ≡ self.old.front + 1 }
        requires prepared { IsPrepared self.old entry.now }
        ensures { Adds entry.now self.old self.new }
    {
        let position = entry.position;
        let head = mem::replace(&mut self.head, HeadChange::none());
        put_repo(
            &mut self.repos,
            position,
            &entry.path,
            head,
            self.puts.as_slice(),
        );
        self.front = position;
    }

    /// The record of an own object stands elsewhere from a position on, where a place of it begins, for as long as it is own.
    /// It takes no memory. An entry that was prepared is to be prepared again.
    pub fn repoint(&mut self, at: u64, path: &RepoPath, name: &Name, place: Place)
        requires from { self.old.floor ≤ at }
        requires to { at ≤ self.old.front }
        ensures { Repoints at path.now name.now place self.old self.new }
    {
        repoint_repo(&mut self.repos, self.floor, at, path, name, place);
    }

    /// Raises the position from which on it answers. What only earlier positions needed is dropped: of what was given a
    /// repository or an object by then only the last is kept, where that counts at the new floor, and no repository or
    /// object without any. It takes no memory. An entry that was prepared is to be prepared again.
    pub fn raise(&mut self, to: u64)
        requires from { self.old.floor ≤ to }
        requires to { to ≤ self.old.front }
        ensures raised { Raises to self.old self.new }
        ensures lean { IsLean self.new }
    {
        raise_repos(&mut self.repos, to);
        keep_members(&mut self.members, &self.repos);
        self.floor = to;
    }

    /// Whether the content at a position has a repository.
    pub fn has_repo(&self, at: u64, path: &RepoPath) -> bool
        requires from { self.now.floor ≤ at }
        requires to { at ≤ self.now.front }
        ensures table { result ≡ is_some (head_at self.now at path.now) }
        ensures content { (base : Content) (log : List Entry) → Agrees self.now base log → result ≡ has_repo (content_at self.now.floor base log at) path.now }
    {
        self.there(at, path)
    }

    /// Whether a repository is a pool. False where it isn't there.
    pub fn is_pool(&self, at: u64, path: &RepoPath) -> bool
        requires from { self.now.floor ≤ at }
        requires to { at ≤ self.now.front }
        ensures table { result ≡ is_pool_of (head_at self.now at path.now) }
        ensures content { (base : Content) (log : List Entry) → Agrees self.now base log → result ≡ is_pool (content_at self.now.floor base log at) path.now }
    {
        self.pool_there(at, path)
    }

    /// The path of a repository's pool. None where it isn't there, or has no pool.
    pub fn pool(&self, at: u64, path: &RepoPath) -> Option<&RepoPath>
        requires from { self.now.floor ≤ at }
        requires to { at ≤ self.now.front }
        ensures table { option_copied result ≡ pool_in (head_at self.now at path.now) }
        ensures content { (base : Content) (log : List Entry) → Agrees self.now base log → option_copied result ≡ pool_of (content_at self.now.floor base log at) path.now }
    {
        self.pool_path(at, path)
    }

    /// Where the record stands that is seen under a name in a repository at a position: the own one, else its pool's. None
    /// where no such object is visible.
    pub fn place(&self, at: u64, path: &RepoPath, name: &Name) -> Option<Place>
        requires from { self.now.floor ≤ at }
        requires to { at ≤ self.now.front }
        ensures table { result ≡ place_at self.now at path.now name.now }
        ensures visible { (base : Content) (log : List Entry) → Agrees self.now base log → is_some result ≡ is_visible (content_at self.now.floor base log at) path.now name.now }
        ensures content { (base : Content) (places : List ℕ → List ℕ → Option Place) (log : List Entry) → Agrees self.now base log → ArePlacedBy self.now base places log → result ≡ seen (head_in (content_at self.now.floor base log at) path.now) (places_at self.now.floor base places log at) path.now name.now }
    {
        self.seen_place(at, path, name)
    }

    /// Whether an object is visible in a repository at a position: its own, or its pool's.
    pub fn has(&self, at: u64, path: &RepoPath, name: &Name) -> bool
        requires from { self.now.floor ≤ at }
        requires to { at ≤ self.now.front }
        ensures table { result ≡ is_some (place_at self.now at path.now name.now) }
        ensures content { (base : Content) (log : List Entry) → Agrees self.now base log → result ≡ is_visible (content_at self.now.floor base log at) path.now name.now }
    {
        self.sees(at, path, name)
    }

    /// The names of a repository's own objects at a position, ascending; none where it isn't there.
    pub fn own(&self, alloc: Global, at: u64, path: &RepoPath) -> Result<Names, NoMemory>
        requires from { self.now.floor ≤ at }
        requires to { at ≤ self.now.front }
        ensures { IfOk result (λ names. (base : Content) (log : List Entry) → Agrees self.now base log → names ≡ own_names (content_at self.now.floor base log at) path.now) }
    {
        match self.repos.get(path) {
            None => Ok(ListOf::new(alloc)),
            Some(repo) => repo.own_names(alloc, at),
        }
    }

    /// The names that are visible in a repository at a position, ascending; none where it isn't there.
    pub fn names(&self, alloc: Global, at: u64, path: &RepoPath) -> Result<Names, NoMemory>
        requires from { self.now.floor ≤ at }
        requires to { at ≤ self.now.front }
        ensures { IfOk result (λ names. (base : Content) (log : List Entry) → Agrees self.now base log → names ≡ visible_names (content_at self.now.floor base log at) path.now) }
    {
        let own = match self.own(alloc, at, path) {
            Ok(own) => own,
            Err(error) => return Err(error),
        };
        match self.pool_path(at, path) {
            None => Ok(own),
            Some(pool) => match self.own(alloc, at, pool) {
                Ok(shared) => in_one(alloc, own.as_slice(), shared.as_slice()),
                Err(error) => Err(error),
            },
        }
    }

    /// The repositories that have this pool at a position, ascending.
    pub fn members(&self, alloc: Global, at: u64, path: &RepoPath) -> Result<Paths, NoMemory>
        requires from { self.now.floor ≤ at }
        requires to { at ≤ self.now.front }
        ensures { IfOk result (λ paths. (base : Content) (log : List Entry) → Agrees self.now base log → paths ≡ members (content_at self.now.floor base log at) path.now) }
    {
        paths_in_pool(&self.repos, &self.members, alloc, at, path)
    }

    /// The least repository that has this pool at a position. None where there is none.
    pub fn least_member(&self, at: u64, path: &RepoPath) -> Option<&RepoPath>
        requires from { self.now.floor ≤ at }
        requires to { at ≤ self.now.front }
        ensures { (base : Content) (log : List Entry) → Agrees self.now base log → option_copied result ≡ least_member (content_at self.now.floor base log at) path.now }
    {
        least_in_pool(&self.repos, &self.members, at, path)
    }

    /// All repositories at a position, ascending.
    pub fn paths(&self, alloc: Global, at: u64) -> Result<Paths, NoMemory>
        requires from { self.now.floor ≤ at }
        requires to { at ≤ self.now.front }
        ensures { IfOk result (λ paths. (base : Content) (log : List Entry) → Agrees self.now base log → paths ≡ all_paths (content_at self.now.floor base log at)) }
    {
        paths_there(&self.repos, alloc, at)
    }

    fn sees(&self, at: u64, path: &RepoPath, name: &Name) -> bool
        ensures { result ≡ is_some (place_at self.now at path.now name.now) }
    {
        self.seen_place(at, path, name).is_some()
    }

    fn there(&self, at: u64, path: &RepoPath) -> bool
        ensures { result ≡ is_some (head_at self.now at path.now) }
    {
        match self.repos.get(path) {
            None => false,
            Some(repo) => repo.is_there(at),
        }
    }

    fn pool_there(&self, at: u64, path: &RepoPath) -> bool
        ensures { result ≡ is_pool_of (head_at self.now at path.now) }
    {
        match self.repos.get(path) {
            None => false,
            Some(repo) => repo.is_pool(at),
        }
    }

    fn pool_path(&self, at: u64, path: &RepoPath) -> Option<&RepoPath>
        ensures { option_copied result ≡ pool_in (head_at self.now at path.now) }
    {
        match self.repos.get(path) {
            None => None,
            Some(repo) => repo.pool(at),
        }
    }

    fn own_place(&self, at: u64, path: &RepoPath, name: &Name) -> Option<Place>
        ensures { result ≡ own_at self.now at path.now name.now }
    {
        match self.repos.get(path) {
            None => None,
            Some(repo) => repo.own(at, name),
        }
    }

    fn seen_place(&self, at: u64, path: &RepoPath, name: &Name) -> Option<Place>
        ensures { result ≡ place_at self.now at path.now name.now }
    {
        match self.own_place(at, path, name) {
            Some(place) => Some(place),
            None => match self.pool_path(at, path) {
                None => None,
                Some(pool) => self.own_place(at, pool, name),
            },
        }
    }
}
