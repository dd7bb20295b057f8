ghost use Rattle.std.specs.Prelude.{◌≡◌, ◌+◌, ◌≤◌, OnOk, OnErr, IfOk, not, ◌&&◌, find};
ghost use Rattle.std.specs.FinMap as map;
ghost use Rattle.std.specs.List.{list_any};
ghost use Rattle.std.specs.Option.{option_copied};
ghost use Rattle.gt_model.specs.Verdicts.{clashes, same_name};
ghost use Rattle.gt_model.specs.Machine.{references};
ghost use Rattle.gt_reftable.specs.Lean.{IsLean};
ghost use Rattle.gt_reftable.specs.Raised.{Raises};
ghost use Rattle.gt_reftable.specs.Table.{refs_at, all_at, Adds, Seeds, IsEmpty, IsSameTable, IsPrepared};

use crate::adding::add_next;
use crate::listing::list_repos;
use crate::preparing::prepare_entry;
use crate::raising::raise_repos;
use crate::repo::RepoRefs;
use crate::seeding::seed_ref;
use gt_list::NoMemory;
use gt_model::{Entry, RefList, RefsAt};
use gt_name::{Name, Names2, RefName, RepoPath};
use std::alloc::Global;
use std::collections::BTreeMap;
use std::marker::Model;

/// The references of every repository at each position from the floor to the front, while entries are added.
#[derive(Drop)]
pub struct RefTable {
    floor: u64,
    front: u64,
    repos: BTreeMap<RepoPath, RepoRefs>,
}

impl Model for RefTable {
    ghost use Rattle.std.specs.FinMap as map;
    ghost use Rattle.gt_reftable.specs.Table.{Table, table_code, AllUpTo};

    ghost Value = { Table };

    ghost coded = { table_code };

    ghost invariant = { λ t. AllUpTo t.front (map.from_entries t.repos.entries) };

    ghost view = { λ t. record { floor = t.floor; front = t.front; repos = map.from_entries t.repos.entries } };
}

impl RefTable {
    /// An empty content at a position, which is the floor and the front.
    pub fn start(alloc: Global, floor: u64) -> Result<RefTable, NoMemory>
        ensures { IfOk result (IsEmpty floor) }
    {
        Ok(RefTable {
            floor,
            front: floor,
            repos: BTreeMap::new(alloc),
        })
    }

    /// A reference is in the content at the floor. It takes the place of an earlier value there.
    pub fn seed(
        &mut self,
        alloc: Global,
        path: &RepoPath,
        name: &RefName,
        value: Name,
    ) -> Result<(), NoMemory>
        requires start { self.old.front ≡ self.old.floor }
        ensures ok { OnOk result (Seeds path.now name.now value self.old self.new) }
        ensures err { OnErr result (IsSameTable self.old self.new) }
    {
        seed_ref(&mut self.repos, alloc, self.front, path, name, value)
    }

    /// The first position of which it knows.
    pub fn floor(&self) -> u64
        ensures { result ≡ self.now.floor }
    {
        self.floor
    }

    /// The position of the last entry, and the floor where there is none.
    pub fn front(&self) -> u64
        ensures { result ≡ self.now.front }
    {
        self.front
    }

    /// What a reference names at a position. None where it isn't there, or its repository isn't.
    pub fn get(&self, at: u64, path: &RepoPath, name: &RefName) -> Option<Name>
        requires from { self.now.floor ≤ at }
        requires to { at ≤ self.now.front }
        ensures { result ≡ map.get (refs_at self.now at path.now) name.now }
    {
        match self.repos.get(path) {
            None => None,
            Some(repo) => repo.value(at, name),
        }
    }

    /// The references of a repository at a position whose names begin so, ascending by name. None where the repository
    /// isn't there. At the front it passes no reference that was deleted, and none of an earlier life of the repository; at
    /// an earlier position it passes all that were written since the floor and whose names begin so.
    pub fn list(
        &self,
        alloc: Global,
        at: u64,
        path: &RepoPath,
        prefix: &[u8],
    ) -> Result<RefList, NoMemory>
        requires from { self.now.floor ≤ at }
        requires to { at ≤ self.now.front }
        ensures { IfOk result (λ l. l ≡ references (refs_at self.now at path.now) prefix.now) }
    {
        match self.repos.get(path) {
            None => Ok(RefList::new(alloc)),
            Some(repo) => {
                if at == self.front {
                    repo.list_newest(alloc, at, prefix)
                } else {
                    repo.list(alloc, at, prefix)
                }
            }
        }
    }

    /// Every reference of all repositories at the front, ascending by path, then by name. It passes no reference that was
    /// deleted, and none of an earlier life of a repository; a repository that has none costs a step.
    pub fn list_all(&self, alloc: Global) -> Result<RefsAt, NoMemory>
        ensures { IfOk result (λ list. list ≡ all_at self.now self.now.front) }
    {
        list_repos(&self.repos, alloc, self.front)
    }

    /// The least reference of a repository at a position that stands in the folder of `name`, or in whose folder `name`
    /// stands, and that isn't gone. It takes no memory. At the front it passes no reference that was deleted, and none of
    /// an earlier life of the repository, so that it costs a logarithm for each folder of the name, and a step for each that
    /// is gone; at an earlier position it passes all that were written in that folder since the floor.
    pub fn clash(&self, at: u64, path: &RepoPath, name: &RefName, gone: &Names2) -> Option<&RefName>
        requires from { self.now.floor ≤ at }
        requires to { at ≤ self.now.front }
        ensures { option_copied result ≡ find (λ other. clashes name.now other && not (list_any (same_name other) gone.now)) (map.keys (refs_at self.now at path.now)) }
    {
        match self.repos.get(path) {
            None => None,
            Some(repo) => {
                if at == self.front {
                    repo.clash_newest(at, name, gone)
                } else {
                    repo.clash(at, name, gone)
                }
            }
        }
    }

    /// Takes all the memory of adding an entry. Nothing changes at any position.
    pub fn prepare(&mut self, alloc: Global, entry: &Entry) -> Result<(), NoMemory>
        ensures same { IsSameTable self.old self.new }
        ensures ok { OnOk result (IsPrepared self.new entry.now) }
    {
        prepare_entry(&mut self.repos, alloc, self.front, entry)
    }

    /// Adds an entry that was prepared. It takes no memory.
    pub fn with(&mut self, entry: &Entry)
        requires next { entry.now.position ≡ self.old.front + 1 }
        requires prepared { IsPrepared self.old entry.now }
        ensures { Adds entry.now self.old self.new }
    {
        add_next(&mut self.repos, self.front, entry.position, entry);
        self.front = entry.position;
    }

    /// Makes a later position the floor: what only earlier ones needed leaves memory. Nothing changes at a position from there
    /// on. It takes no memory, and costs in proportion to all that was written since the floor. Room that was taken for an
    /// entry may go with it, so call it only where none is prepared.
    pub fn raise(&mut self, to: u64)
        requires from { self.old.floor ≤ to }
        requires to { to ≤ self.old.front }
        ensures raised { Raises to self.old self.new }
        ensures lean { IsLean self.new }
    {
        raise_repos(&mut self.repos, to);
        self.floor = to;
    }
}
