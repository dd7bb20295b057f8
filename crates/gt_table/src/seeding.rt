// What the files of a base have, put into both tables at the position of the base.
ghost use Rattle.std.specs.Prelude.{◌≡◌, ℕ, List, [], ◌∷◌, fold, None, Some, IsSome, OnOk, if◌then◌else◌};
ghost use Rattle.std.specs.FinMap as map;
ghost use Rattle.std.specs.Option.{option_map};
ghost use Rattle.std.specs.Ordering.{eq_by_cmp};
ghost use Rattle.gt_base.specs.declared.held.BaseRepo.{BaseRepo};
ghost use Rattle.gt_base.specs.Held.{place_of, place_in, to_place, packed_values, with_loose, refs_of};
ghost use Rattle.gt_model.specs.Contents.{key_cmp, is_zero};
ghost use Rattle.gt_objset.specs.Table.{head_at};
ghost use Rattle.gt_pack.specs.Index.{find_in};
ghost use Rattle.gt_reftable.specs.Table.{refs_at};
ghost use Rattle.gt_table.specs.Seeds.{PutsPlaces, PutsRepo, PutsRefs, Left};

use gt_base::{BaseRepo, HeldPack};
use gt_disk::FileId;
use gt_list::NoMemory;
use gt_model::RefValue;
use gt_name::{Name, RefName, RepoPath};
use gt_objset::{ObjSet, Place};
use gt_pack::Placed;
use gt_reftable::RefTable;
use gt_reftext::PackedRef;
use std::alloc::Global;
use std::collections::BTreeMap;

/// The kind of the files that are packs.
const PACK: u8 = 5;

/// Puts all repositories into tables that are empty yet. Of those with one path the first counts.
pub(crate) fn seed_all(
    refs: &mut RefTable,
    objects: &mut ObjSet,
    alloc: Global,
    repos: &[BaseRepo],
) -> Result<(), NoMemory>
    requires { Left refs.old.floor repos.now repos.now refs.old objects.old }
    ensures { OnOk result (Left refs.old.floor [] repos.now refs.new objects.new) }
{
    for repo in repos {
        if let Err(error) = seed_first(refs, objects, alloc, repo) {
            return Err(error);
        }
    }
    Ok(())
}

/// Puts a repository, unless one with its path is there already.
fn seed_first(
    refs: &mut RefTable,
    objects: &mut ObjSet,
    alloc: Global,
    repo: &BaseRepo,
) -> Result<(), NoMemory>
    requires refs { refs.old.front ≡ refs.old.floor }
    requires objects { objects.old.front ≡ objects.old.floor }
    requires clean { head_at objects.old objects.old.floor repo.now.path ≡ None → refs_at refs.old refs.old.floor repo.now.path ≡ map.empty }
    ensures { OnOk result ((begin : ℕ) (rest all : List BaseRepo) → Left begin (repo.now ∷ rest) all refs.old objects.old → Left begin rest all refs.new objects.new) }
{
    if objects.has_repo(objects.floor(), &repo.path) {
        return Ok(());
    }
    if let Err(error) = seed_repo(objects, alloc, repo) {
        return Err(error);
    }
    seed_refs(
        refs,
        alloc,
        &repo.path,
        repo.packed.as_slice(),
        repo.loose.as_slice(),
    )
}

// ---- objects

fn seed_repo(objects: &mut ObjSet, alloc: Global, repo: &BaseRepo) -> Result<(), NoMemory>
    requires first { objects.old.front ≡ objects.old.floor }
    requires new { head_at objects.old objects.old.floor repo.now.path ≡ None }
    ensures { OnOk result (PutsRepo repo.now objects.old objects.new) }
{
    if let Err(error) = objects.seed_repo(alloc, &repo.path, repo.is_pool, repo.pool.as_ref()) {
        return Err(error);
    }
    seed_packs(objects, alloc, &repo.path, repo.packs.as_slice())
}

/// Puts the places of packs. The last one goes first, since a place hides those that were put before.
fn seed_packs(
    objects: &mut ObjSet,
    alloc: Global,
    path: &RepoPath,
    packs: &[HeldPack],
) -> Result<(), NoMemory>
    requires first { objects.old.front ≡ objects.old.floor }
    requires there { IsSome (head_at objects.old objects.old.floor path.now) }
    ensures { OnOk result (PutsPlaces path.now (place_of packs.now) objects.old objects.new) }
{
    for i in (0..packs.len()).rev() {
        let pack = &packs[i];
        if let Err(error) = seed_items(objects, alloc, path, pack.number(), pack.items()) {
            return Err(error);
        }
    }
    Ok(())
}

/// Puts the places of a pack's records, the last one first.
fn seed_items(
    objects: &mut ObjSet,
    alloc: Global,
    path: &RepoPath,
    number: u64,
    items: &[Placed],
) -> Result<(), NoMemory>
    requires first { objects.old.front ≡ objects.old.floor }
    requires there { IsSome (head_at objects.old objects.old.floor path.now) }
    ensures { OnOk result (PutsPlaces path.now (λ x. option_map (to_place number) (find_in items.now x)) objects.old objects.new) }
{
    for i in (0..items.len()).rev() {
        if let Err(error) = seed_item(objects, alloc, path, number, &items[i]) {
            return Err(error);
        }
    }
    Ok(())
}

fn seed_item(
    objects: &mut ObjSet,
    alloc: Global,
    path: &RepoPath,
    number: u64,
    item: &Placed,
) -> Result<(), NoMemory>
    requires first { objects.old.front ≡ objects.old.floor }
    requires there { IsSome (head_at objects.old objects.old.floor path.now) }
    ensures { OnOk result (PutsPlaces path.now (λ x. if eq_by_cmp key_cmp x item.now.name then Some (to_place number (item.now.place, item.now.len)) else None) objects.old objects.new) }
{
    let file = FileId { kind: PACK, number };
    let place = Place {
        file,
        at: item.place,
        len: item.len,
    };
    objects.seed(alloc, path, &item.name, place)
}

// ---- references

/// Puts the references of a repository that has none yet.
fn seed_refs(
    refs: &mut RefTable,
    alloc: Global,
    path: &RepoPath,
    packed: &[PackedRef],
    loose: &[RefValue],
) -> Result<(), NoMemory>
    requires start { refs.old.front ≡ refs.old.floor }
    requires none { refs_at refs.old refs.old.floor path.now ≡ map.empty }
    ensures { OnOk result (PutsRefs path.now (refs_of packed.now loose.now) refs.old refs.new) }
{
    let mut names = BTreeMap::new(alloc);
    if let Err(error) = put_packed(&mut names, packed) {
        return Err(error);
    }
    if let Err(error) = put_loose(&mut names, loose) {
        return Err(error);
    }
    seed_names(refs, alloc, path, &names)
}

/// Puts packed references, the last one first, since a value hides that which was put before.
fn put_packed(names: &mut BTreeMap<RefName, Name>, packed: &[PackedRef]) -> Result<(), NoMemory>
    requires { names.old.entries ≡ [] }
    ensures { OnOk result (map.from_entries names.new.entries ≡ packed_values packed.now) }
{
    for i in (0..packed.len()).rev() {
        let item = &packed[i];
        let Ok(name) = item.name.clone() else {
            return Err(NoMemory);
        };
        match names.insert(name, item.value) {
            Ok(_) => {}
            Err(_) => return Err(NoMemory),
        }
    }
    Ok(())
}

fn put_loose(names: &mut BTreeMap<RefName, Name>, loose: &[RefValue]) -> Result<(), NoMemory>
    ensures { OnOk result (map.from_entries names.new.entries ≡ fold with_loose (map.from_entries names.old.entries) loose.now) }
{
    for value in loose {
        if let Err(error) = put_value(names, value) {
            return Err(error);
        }
    }
    Ok(())
}

/// A reference has this value from now on, or goes where that is zero.
fn put_value(names: &mut BTreeMap<RefName, Name>, value: &RefValue) -> Result<(), NoMemory>
    ensures { OnOk result (map.from_entries names.new.entries ≡ with_loose (map.from_entries names.old.entries) value.now) }
{
    if is_zero(value.value) {
        names.remove(&value.name);
        return Ok(());
    }
    let Ok(name) = value.name.clone() else {
        return Err(NoMemory);
    };
    match names.insert(name, value.value) {
        Ok(_) => {}
        Err(_) => return Err(NoMemory),
    }
    Ok(())
}

fn is_zero(value: Name) -> bool
    ensures { result ≡ is_zero value }
{
    value == Name::ZERO
}

fn seed_names(
    refs: &mut RefTable,
    alloc: Global,
    path: &RepoPath,
    names: &BTreeMap<RefName, Name>,
) -> Result<(), NoMemory>
    requires start { refs.old.front ≡ refs.old.floor }
    requires none { refs_at refs.old refs.old.floor path.now ≡ map.empty }
    ensures { OnOk result (PutsRefs path.now (map.from_entries names.now.entries) refs.old refs.new) }
{
    for (name, value) in names.iter() {
        if let Err(error) = refs.seed(alloc, path, name, *value) {
            return Err(error);
        }
    }
    Ok(())
}
