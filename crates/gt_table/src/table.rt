ghost use Rattle.std.specs.Prelude.{◌≡◌, ◌≤◌, ◌+◌, ◌++◌, ◌∷◌, [], drop, is_some, IfOk, OnOk, IsTrue};
ghost use Rattle.std.specs.Option.{option_copied};
ghost use Rattle.gt_model.specs.Contents.{value, is_visible, has_repo, least_member, fits};
ghost use Rattle.gt_model.specs.Histories.{all_refs};
ghost use Rattle.gt_model.specs.Machine.{references};
ghost use Rattle.gt_model.specs.Verdicts.{clash, refs_in};
ghost use Rattle.gt_objset.specs.Moved.{Repoints};
ghost use Rattle.gt_objset.specs.Raised as raised_objects;
ghost use Rattle.gt_objset.specs.Table as objects;
ghost use Rattle.gt_reftable.specs.Lean as lean_refs;
ghost use Rattle.gt_reftable.specs.Raised as raised_refs;
ghost use Rattle.gt_reftable.specs.Table as refs;
ghost use Rattle.gt_table.specs.Table.{Follow, HasRoomFor, IsUnmoved, floor, front, content, content_at, place_at};

use crate::entry_log::EntryLog;
use crate::seeding::seed_all;
use gt_base::BaseContent;
use gt_list::NoMemory;
use gt_model::{Entry, RefList, RefsAt};
use gt_name::{Name, Names2, RefName, RepoPath};
use gt_objset::{
    ObjSet, Place, raised_tables_agree as raised_objects_agree, repointed_tables_agree,
    seeded_tables_agree, tables_follow_their_logs,
};
use gt_reftable::{
    RefTable, empty_tables_agree, lists_are_of_contents, raised_tables_agree as raised_refs_agree,
    references_are_values, tables_follow_their_log,
};
use std::alloc::Global;
use std::marker::Model;
use std::snapshot::Snapshot;

/// The entries of a log past a base, and what base and log have made at each position from a floor on, which is that of the
/// base until it is raised. Each look-up takes a logarithm of what the repository has. Contracts see what the files of the base
/// had, too, and the entries up to the floor, which aren't kept.
#[derive(Drop)]
pub struct Table {
    begin: u64,
    repos: Snapshot<BaseContent>,
    entries: EntryLog,
    refs: RefTable,
    objects: ObjSet,
}

impl Model for Table {
    ghost use Rattle.gt_table.specs.Table.{Tables, tables_code, Follow};

    ghost Value = { Tables };

    ghost coded = { tables_code };

    ghost view = { λ t. record { past = record { begin = t.begin; repos = t.repos.value; log = t.entries.log }; gone = t.entries.gone; room = t.entries.room; refs = t.refs; objects = t.objects } };

    ghost invariant = { λ t. Follow (record { past = record { begin = t.begin; repos = t.repos.value; log = t.entries.log }; gone = t.entries.gone; room = t.entries.room; refs = t.refs; objects = t.objects }) };
}

impl Table {
    /// No entry yet past what the files of a base have, which stands at a position.
    pub fn over(alloc: Global, begin: u64, repos: &BaseContent) -> Result<Table, NoMemory>
        ensures past { IfOk result (λ t. t.past ≡ record { begin = begin; repos = repos.now; log = [] }) }
        ensures unmoved { IfOk result IsUnmoved }
    {
        // laws, which do nothing, as those in `value_at`, `all_refs`, `add`, `repoint` and `raise`
        empty_tables_agree();
        seeded_tables_agree();
        let mut refs = match RefTable::start(alloc, begin) {
            Ok(refs) => refs,
            Err(error) => return Err(error),
        };
        let mut objects = match ObjSet::start(alloc, begin) {
            Ok(objects) => objects,
            Err(error) => return Err(error),
        };
        if let Err(error) = seed_all(&mut refs, &mut objects, alloc, repos.as_slice()) {
            return Err(error);
        }
        Ok(Table {
            begin,
            repos: Snapshot::of(repos),
            entries: EntryLog::new(alloc),
            refs,
            objects,
        })
    }

    /// The position of the base.
    pub fn begin(&self) -> u64
        ensures { result ≡ self.now.past.begin }
    {
        self.begin
    }

    /// The position from which on it answers.
    pub fn floor(&self) -> u64
        ensures { result ≡ floor self.now }
    {
        self.refs.floor()
    }

    /// A law, which does nothing: both tables agree with the content at each position from the floor on.
    pub fn follows(&self)
        ensures { Follow self.now }
    {
        let _ = self.refs.floor();
    }

    /// The entries past the floor, in order.
    pub fn entries(&self) -> &[Entry]
        ensures { result.now ≡ drop self.now.gone self.now.past.log }
    {
        self.entries.kept()
    }

    /// The position of the last entry, that of the base where there is none.
    pub fn front(&self) -> u64
        ensures { result ≡ front self.now.past }
    {
        self.refs.front()
    }

    /// It answers at the front. The call does nothing.
    pub fn law_floor(&self)
        ensures { floor self.now ≤ front self.now.past }
    {
        // for the prover
        let _refs = &self.refs;
    }

    /// Whether the content at the front has a repository.
    pub fn has_repo(&self, path: &RepoPath) -> bool
        ensures { result ≡ has_repo (content self.now.past) path.now }
    {
        self.objects.has_repo(self.front(), path)
    }

    /// The least repository that has this pool at the front.
    pub fn least_member(&self, path: &RepoPath) -> Option<&RepoPath>
        ensures { option_copied result ≡ least_member (content self.now.past) path.now }
    {
        self.objects.least_member(self.front(), path)
    }

    /// What a reference names at a position. None where it isn't there, or its repository isn't.
    pub fn value_at(&self, at: u64, path: &RepoPath, name: &RefName) -> Option<Name>
        requires from { floor self.now ≤ at }
        requires to { at ≤ front self.now.past }
        ensures { result ≡ value (content_at self.now.past at) path.now name.now }
    {
        references_are_values();
        self.refs.get(at, path, name)
    }

    /// The references of a repository at a position whose names begin so, ascending by name.
    pub fn list_at(
        &self,
        alloc: Global,
        at: u64,
        path: &RepoPath,
        prefix: &[u8],
    ) -> Result<RefList, NoMemory>
        requires from { floor self.now ≤ at }
        requires to { at ≤ front self.now.past }
        ensures { IfOk result (λ list. list ≡ references (refs_in (content_at self.now.past at) path.now) prefix.now) }
    {
        self.refs.list(alloc, at, path, prefix)
    }

    /// Every reference at the front, ascending by repository, then by name. It costs a step for each, and a step for each
    /// repository that was ever written to.
    pub fn all_refs(&self, alloc: Global) -> Result<RefsAt, NoMemory>
        ensures { IfOk result (λ list. list ≡ all_refs (content self.now.past)) }
    {
        lists_are_of_contents();
        self.refs.list_all(alloc)
    }

    /// Where the record stands that is seen under a name in a repository at a position: the own one, else its pool's. None
    /// where no such object is visible.
    pub fn place_at(&self, at: u64, path: &RepoPath, name: &Name) -> Option<Place>
        requires from { floor self.now ≤ at }
        requires to { at ≤ front self.now.past }
        ensures visible { is_some result ≡ is_visible (content_at self.now.past at) path.now name.now }
        ensures table { result ≡ objects.place_at self.now.objects at path.now name.now }
        ensures unmoved { IsUnmoved self.now → result ≡ place_at self.now.past at path.now name.now }
    {
        self.objects.place(at, path, name)
    }

    /// The least reference of a repository at the front that stands in the folder of `name`, or in whose folder `name` stands,
    /// and that isn't gone. It takes no memory.
    pub(crate) fn clash_at_front(
        &self,
        path: &RepoPath,
        name: &RefName,
        gone: &Names2,
    ) -> Option<&RefName>
        ensures { option_copied result ≡ clash (content self.now.past) path.now name.now gone.now }
    {
        self.refs.clash(self.front(), path, name, gone)
    }

    /// Takes all the memory of adding an entry. Nothing changes at any position.
    pub fn prepare(&mut self, alloc: Global, entry: &Entry) -> Result<(), NoMemory>
        ensures same { self.new.past ≡ self.old.past }
        ensures gone { self.new.gone ≡ self.old.gone }
        ensures refs { refs.IsSameTable self.old.refs self.new.refs }
        ensures objects { objects.IsSameTable self.old.objects self.new.objects }
        ensures unmoved { IsUnmoved self.old → IsUnmoved self.new }
        ensures ok { OnOk result (HasRoomFor entry.now self.new) }
    {
        if let Err(error) = self.entries.reserve() {
            return Err(error);
        }
        if let Err(error) = self.refs.prepare(alloc, entry) {
            return Err(error);
        }
        self.objects.prepare(alloc, entry)
    }

    /// Adds an entry that was prepared last and fits the content at the front. It takes no memory.
    pub fn add(&mut self, entry: Entry)
        requires next { entry.position ≡ front self.old.past + 1 }
        requires fit { IsTrue (fits (content self.old.past) entry) }
        requires room { HasRoomFor entry self.old }
        ensures past { self.new.past ≡ record self.old.past { log = self.old.past.log ++ entry ∷ [] } }
        ensures gone { self.new.gone ≡ self.old.gone }
        ensures refs { refs.Adds entry self.old.refs self.new.refs }
        ensures objects { objects.Adds entry self.old.objects self.new.objects }
        ensures unmoved { IsUnmoved self.old → IsUnmoved self.new }
    {
        tables_follow_their_log();
        tables_follow_their_logs();
        self.refs.with(&entry);
        self.objects.with(&entry);
        self.entries.add(entry);
    }

    /// The record of an own object stands elsewhere from a position on, where a place of it begins, for as long as it is own.
    /// It takes no memory. An entry that was prepared is to be prepared again.
    pub fn repoint(&mut self, at: u64, path: &RepoPath, name: &Name, place: Place)
        requires from { floor self.old ≤ at }
        requires to { at ≤ front self.old.past }
        ensures past { self.new.past ≡ self.old.past }
        ensures gone { self.new.gone ≡ self.old.gone }
        ensures room { self.new.room ≡ self.old.room }
        ensures refs { self.new.refs ≡ self.old.refs }
        ensures objects { Repoints at path.now name.now place self.old.objects self.new.objects }
    {
        repointed_tables_agree();
        self.objects.repoint(at, path, name, place);
    }

    /// Raises the position from which on it answers. The entries up to there leave memory, and so does what only earlier
    /// positions needed; contracts see these entries still. It takes no memory, and costs in proportion to all that is there.
    /// An entry that was prepared is to be prepared again.
    pub fn raise(&mut self, to: u64)
        requires from { floor self.old ≤ to }
        requires to { to ≤ front self.old.past }
        ensures past { self.new.past ≡ self.old.past }
        ensures floor { floor self.new ≡ to }
        ensures refs { raised_refs.Raises to self.old.refs self.new.refs }
        ensures objects { raised_objects.Raises to self.old.objects self.new.objects }
        ensures lean_refs { lean_refs.IsLean self.new.refs }
        ensures lean_objects { raised_objects.IsLean self.new.objects }
    {
        raised_refs_agree();
        raised_objects_agree();
        let count = (to - self.refs.floor()) as usize;
        self.entries.drop_front(count);
        self.refs.raise(to);
        self.objects.raise(to);
    }
}
