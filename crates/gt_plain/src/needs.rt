ghost use Rattle.std.specs.Prelude.{◌≡◌, ◌++◌, [], not, filter, map, OnOk, IfOk};
ghost use Rattle.std.specs.List.{filter_map, flat_map};
ghost use Rattle.std.specs.BTreeMap.{IsOrdered};
ghost use Rattle.std.specs.FinMap as finite;
ghost use Rattle.gt_object.specs.Whole.{deps};
ghost use Rattle.gt_model.specs.Contents.{key_cmp, is_visible};
ghost use Rattle.gt_plain.specs.Plain.{and_missing, staged};
ghost use Rattle.gt_model.specs.Verdicts.{ascending, target, is_added, added_records, needed_names};

use crate::PlainContent;
use crate::present::{is_added, target};
use gt_list::{ListOf, NoMemory};
use gt_model::{Added, RefUpdate};
use gt_name::{Name, Names, RepoPath};
use gt_object::Record;
use std::alloc::Global;
use std::collections::BTreeMap;

/// Sets a value where its name has none.
fn add_missing<V: Drop>(tree: &mut BTreeMap<Name, V>, name: Name, value: V) -> Result<(), NoMemory>
    ensures { OnOk result (finite.from_entries {R = key_cmp} tree.new.entries ≡ and_missing (finite.from_entries tree.old.entries) (name, value)) }
{
    if tree.contains_key(&name) {
        return Ok(());
    }
    match tree.insert(name, value) {
        Ok(_) => Ok(()),
        Err(_) => Err(NoMemory),
    }
}

fn copy_of(item: &Added) -> Result<Added, NoMemory>
    ensures { IfOk result (λ r. r ≡ item.now) }
{
    match item.clone() {
        Ok(item) => Ok(item),
        Err(_) => Err(NoMemory),
    }
}

/// The staged records by their names; of two of the same name the first.
fn by_name(alloc: Global, records: &[Added]) -> Result<BTreeMap<Name, Added>, NoMemory>
    ensures { IfOk result (λ t. finite.from_entries {R = key_cmp} t.entries ≡ finite.from_entries (map (λ a. (a.name, a)) records.now)) }
{
    let mut tree = BTreeMap::new(alloc);
    for item in records {
        add_missing(&mut tree, item.name, copy_of(item)?)?;
    }
    Ok(tree)
}

/// The staged records that aren't visible, ascending by name.
pub fn added_records(
    alloc: Global,
    content: &PlainContent,
    path: &RepoPath,
    records: &[Added],
) -> Result<Vec<Added>, NoMemory>
    ensures { IfOk result (λ v. v.items ≡ added_records content.now path.now (staged [] records.now)) }
{
    let tree = by_name(alloc, records)?;
    unseen(alloc, content, path, &tree)
}

/// The records of a tree that aren't visible.
fn unseen(
    alloc: Global,
    content: &PlainContent,
    path: &RepoPath,
    tree: &BTreeMap<Name, Added>,
) -> Result<Vec<Added>, NoMemory>
    ensures unseen { IfOk result (λ v. v.items ≡ filter (λ a. not (is_visible content.now path.now a.name)) (map (λ e. e.1) tree.now.entries)) }
    ensures ordered { IsOrdered key_cmp tree.now }
{
    let mut added = Vec::new(alloc);
    for item in tree.values() {
        if !content.is_visible(path, &item.name) {
            added.push(copy_of(item)?)?;
        }
    }
    Ok(added)
}

/// The names of records, in order.
pub(crate) fn names_of(alloc: Global, records: &[Added]) -> Result<Vec<Name>, NoMemory>
    ensures { IfOk result (λ v. v.items ≡ map (λ a. a.name) records.now) }
{
    let names = records.iter().map(|item| item.name).collect(alloc)?;
    Ok(names)
}

/// What a record mentions.
pub fn deps_of(alloc: Global, whole: &Record) -> Result<Names, NoMemory>
    ensures { IfOk result (λ names. names ≡ deps whole.now) }
{
    match whole.deps(alloc) {
        Ok(names) => Ok(names),
        Err(_) => Err(NoMemory),
    }
}

/// What records mention, in order.
fn all_deps(alloc: Global, records: &[Added]) -> Result<Vec<Name>, NoMemory>
    ensures { IfOk result (λ v. v.items ≡ flat_map (λ a. deps a.whole) records.now) }
{
    let mut names = Vec::new(alloc);
    for item in records {
        names.extend_from_slice(deps_of(alloc, &item.whole)?.as_slice())?;
    }
    Ok(names)
}

fn targets(alloc: Global, refs: &[RefUpdate]) -> Result<Vec<Name>, NoMemory>
    ensures { IfOk result (λ v. v.items ≡ filter_map target refs.now) }
{
    let names = refs
        .iter()
        .filter_map(|update| target(update))
        .collect(alloc)?;
    Ok(names)
}

/// The names that aren't added.
fn others(
    alloc: Global,
    content: &PlainContent,
    path: &RepoPath,
    records: &[Added],
    names: &[Name],
) -> Result<Vec<Name>, NoMemory>
    ensures { IfOk result (λ v. v.items ≡ filter (λ name. not (is_added content.now path.now (staged [] records.now) name)) names.now) }
{
    let mut others = Vec::new(alloc);
    for name in names {
        if !is_added(content, path, records, name) {
            others.push(*name)?;
        }
    }
    Ok(others)
}

fn names_tree(alloc: Global, names: &[Name]) -> Result<BTreeMap<Name, Name>, NoMemory>
    ensures { IfOk result (λ t. finite.from_entries {R = key_cmp} t.entries ≡ finite.from_entries (map (λ name. (name, name)) names.now)) }
{
    let mut tree = BTreeMap::new(alloc);
    for name in names {
        add_missing(&mut tree, *name, *name)?;
    }
    Ok(tree)
}

/// Names, ascending, each once.
pub fn ascending(alloc: Global, names: &[Name]) -> Result<Names, NoMemory>
    ensures { IfOk result (λ list. list ≡ ascending names.now) }
{
    let tree = names_tree(alloc, names)?;
    keys_of(alloc, &tree)
}

fn keys_of(alloc: Global, tree: &BTreeMap<Name, Name>) -> Result<Names, NoMemory>
    ensures keys { IfOk result (λ list. list ≡ map (λ e. e.0) tree.now.entries) }
    ensures ordered { IsOrdered key_cmp tree.now }
{
    let keys = tree.keys().copied().collect(alloc)?;
    Ok(ListOf::from_vec(keys))
}

/// The names that a commit relies on: new values, names of staged records, and what added records mention, without what it
/// adds.
pub(crate) fn needed_names(
    alloc: Global,
    content: &PlainContent,
    path: &RepoPath,
    refs: &[RefUpdate],
    records: &[Added],
) -> Result<Names, NoMemory>
    ensures { IfOk result (λ list. list ≡ needed_names content.now path.now (staged refs.now records.now)) }
{
    let mut names = targets(alloc, refs)?;
    names.extend_from_slice(names_of(alloc, records)?.as_slice())?;
    let added = added_records(alloc, content, path, records)?;
    names.extend_from_slice(all_deps(alloc, added.as_slice())?.as_slice())?;
    let others = others(alloc, content, path, records, names.as_slice())?;
    ascending(alloc, others.as_slice())
}
