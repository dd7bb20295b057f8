// The values that entries write to references of one repository.
ghost use Rattle.std.specs.Prelude.{◌≡◌, fold, IfOk, OnOk};
ghost use Rattle.std.specs.BTreeMap.{IsOrdered};
ghost use Rattle.std.specs.FinMap as map;
ghost use Rattle.gt_model.specs.Contents.{key_cmp};
ghost use Rattle.gt_apply.specs.Plan.{updates_by, with_update, values_of};
ghost use Rattle.gt_apply.specs.Steps.{seen};

use gt_list::{ListOf, NoMemory};
use gt_model::{Change, Entry, RefUpdate};
use gt_name::{Name, RefName};
use std::alloc::Global;
use std::collections::BTreeMap;

/// References and their values.
pub(crate) type ValueList = ListOf<(RefName, Name)>;

type ValueTree = BTreeMap<RefName, Name>;

fn put(tree: &mut ValueTree, name: RefName, value: Name) -> Result<(), NoMemory>
    ensures { OnOk result (map.from_entries {R = key_cmp} tree.new.entries ≡ map.insert (map.from_entries tree.old.entries) name value) }
{
    tree.insert(name, value)?;
    Ok(())
}

/// A check writes nothing, and a deletion writes zeros.
fn add_update(tree: &mut ValueTree, update: &RefUpdate) -> Result<(), NoMemory>
    ensures { OnOk result (map.from_entries {R = key_cmp} tree.new.entries ≡ with_update (map.from_entries tree.old.entries) update.now) }
{
    match update.new {
        None => Ok(()),
        Some(value) => {
            let name = update.name.clone()?;
            put(tree, name, value)
        }
    }
}

fn add_updates(tree: &mut ValueTree, updates: &[RefUpdate]) -> Result<(), NoMemory>
    ensures { OnOk result (map.from_entries {R = key_cmp} tree.new.entries ≡ fold with_update (map.from_entries tree.old.entries) updates.now) }
{
    for update in updates {
        add_update(tree, update)?;
    }
    Ok(())
}

fn add_change(tree: &mut ValueTree, change: &Change) -> Result<(), NoMemory>
    ensures { OnOk result (map.from_entries {R = key_cmp} tree.new.entries ≡ fold with_update (map.from_entries tree.old.entries) (updates_by change.now)) }
{
    match change {
        Change::Write { refs, .. } => add_updates(tree, refs.as_slice()),
        Change::Create { .. } => Ok(()),
        Change::Delete => Ok(()),
        Change::Link { .. } => Ok(()),
        Change::Repack { .. } => Ok(()),
        Change::Prune { .. } => Ok(()),
        Change::PackRefs { .. } => Ok(()),
        Change::Unlink { .. } => Ok(()),
    }
}

fn tree_of(alloc: Global, own: &[&Entry]) -> Result<ValueTree, NoMemory>
    ensures { IfOk result (λ tree. map.from_entries {R = key_cmp} tree.entries ≡ values_of (seen own.now)) }
{
    let mut tree = BTreeMap::new(alloc);
    for entry in own {
        add_change(&mut tree, &entry.change)?;
    }
    Ok(tree)
}

fn list_of(alloc: Global, tree: ValueTree) -> Result<ValueList, NoMemory>
    ensures list { IfOk result (λ list. list ≡ tree.entries) }
    ensures ordered { IsOrdered key_cmp tree }
{
    let items = tree.into_iter().collect(alloc)?;
    Ok(ListOf::from_vec(items))
}

/// The last value that entries write to each reference, ascending by its name.
pub(crate) fn values_of(alloc: Global, own: &[&Entry]) -> Result<ValueList, NoMemory>
    ensures { IfOk result (λ list. list ≡ map.entries (values_of (seen own.now))) }
{
    let tree = tree_of(alloc, own)?;
    list_of(alloc, tree)
}
