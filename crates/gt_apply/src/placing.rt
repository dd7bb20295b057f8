// The new files of a repository in its lists.
ghost use Rattle.std.specs.Prelude.{◌≡◌, ◌+◌, ◌<◌, ◌^◌, [], ◌∷◌, ◌++◌, length, is_some, map as map_list, IfOk, OnOk};
ghost use Rattle.std.specs.BTreeMap.{IsOrdered};
ghost use Rattle.std.specs.FinMap as map;
ghost use Rattle.gt_model.specs.Contents.{key_cmp};
ghost use Rattle.gt_apply.specs.Plan.{numbers_of, to_loose, placed};
ghost use Rattle.gt_apply.specs.Steps.{files_in, with_numbers, with_all_loose};

use crate::writes::Writes;
use gt_list::{ListOf, NoMemory};
use gt_manifest::{Loose, LooseList, RepoFiles};
use gt_name::{Name, RefName};
use std::alloc::Global;
use std::collections::BTreeMap;

type NumberTree = BTreeMap<RefName, u64>;

fn put(tree: &mut NumberTree, name: RefName, file: u64) -> Result<(), NoMemory>
    ensures { OnOk result (map.from_entries {R = key_cmp} tree.new.entries ≡ map.insert (map.from_entries tree.old.entries) name file) }
{
    tree.insert(name, file)?;
    Ok(())
}

/// The file of each loose reference, by its name. Of those of one name it has the first.
fn tree_of(alloc: Global, list: LooseList) -> Result<NumberTree, NoMemory>
    ensures { IfOk result (λ tree. map.from_entries {R = key_cmp} tree.entries ≡ numbers_of list) }
{
    let mut left = list;
    let mut tree = BTreeMap::new(alloc);
    while let Some(loose) = left.pop() {
        put(&mut tree, loose.name, loose.file)?;
    }
    Ok(tree)
}

fn list_of(alloc: Global, tree: NumberTree) -> Result<LooseList, NoMemory>
    ensures list { IfOk result (λ list. list ≡ map_list to_loose tree.entries) }
    ensures ordered { IsOrdered key_cmp tree }
{
    let items = tree
        .into_iter()
        .map(|(name, file)| Loose { name, file })
        .collect(alloc)?;
    Ok(ListOf::from_vec(items))
}

/// Gives these references the files from this number on.
fn put_all(tree: &mut NumberTree, number: u64, values: &[(RefName, Name)]) -> Result<(), NoMemory>
    requires { number + length values.now < 2 ^ 64 }
    ensures { OnOk result (map.from_entries {R = key_cmp} tree.new.entries ≡ with_numbers (map.from_entries tree.old.entries) number values.now) }
{
    let mut next = number;
    for value in values {
        let name = value.0.clone()?;
        put(tree, name, next)?;
        next += 1;
    }
    Ok(())
}

fn with_all_loose(
    alloc: Global,
    list: LooseList,
    number: u64,
    values: &[(RefName, Name)],
) -> Result<LooseList, NoMemory>
    requires { number + length values.now < 2 ^ 64 }
    ensures { IfOk result (λ all. all ≡ with_all_loose list number values.now) }
{
    if values.is_empty() {
        return Ok(list);
    }
    let mut tree = tree_of(alloc, list)?;
    put_all(&mut tree, number, values)?;
    list_of(alloc, tree)
}

fn with_pack(repo: RepoFiles, number: u64) -> Result<RepoFiles, NoMemory>
    ensures { IfOk result (λ r. r ≡ record repo { packs = repo.packs ++ number ∷ [] }) }
{
    let mut packs = repo.packs;
    packs.push(number)?;
    Ok(RepoFiles { packs, ..repo })
}

fn with_values(
    alloc: Global,
    repo: RepoFiles,
    number: u64,
    values: &[(RefName, Name)],
) -> Result<RepoFiles, NoMemory>
    requires { number + length values.now < 2 ^ 64 }
    ensures { IfOk result (λ r. r ≡ record repo { loose = with_all_loose repo.loose number values.now }) }
{
    let loose = with_all_loose(alloc, repo.loose, number, values)?;
    Ok(RepoFiles { loose, ..repo })
}

/// What a repository's lists become by new files from this number on: a pack comes last, a loose file is in place of the old
/// one of its reference.
pub(crate) fn placed(
    alloc: Global,
    repo: RepoFiles,
    number: u64,
    writes: &Writes,
) -> Result<RepoFiles, NoMemory>
    requires { number + length (files_in writes.now) < 2 ^ 64 }
    ensures { IfOk result (λ r. r ≡ placed number (files_in writes.now) repo) }
{
    match &writes.pack {
        None => with_values(alloc, repo, number, writes.values.as_slice()),
        Some(_) => {
            let repo = with_pack(repo, number)?;
            with_values(alloc, repo, number + 1, writes.values.as_slice())
        }
    }
}
