// The records that entries add to one repository.
ghost use Rattle.std.specs.Prelude.{◌≡◌, map as map_list, IfOk, OnOk};
ghost use Rattle.std.specs.List.{list_any};
ghost use Rattle.std.specs.BTreeMap.{IsOrdered};
ghost use Rattle.std.specs.FinMap as map;
ghost use Rattle.gt_model.specs.Contents.{key_cmp, with_added};
ghost use Rattle.gt_model.specs.Batches.{has_records};
ghost use Rattle.gt_apply.specs.Plan.{added_by, records_of, to_added};
ghost use Rattle.gt_apply.specs.Steps.{seen};

use gt_list::{ListOf, NoMemory};
use gt_model::{Added, AddedRecords, Change, Entry};
use gt_name::Name;
use gt_object::Record;
use std::alloc::Global;
use std::collections::BTreeMap;

type RecordTree = BTreeMap<Name, Record>;

fn put(tree: &mut RecordTree, name: Name, whole: Record) -> Result<(), NoMemory>
    ensures { OnOk result (map.from_entries {R = key_cmp} tree.new.entries ≡ map.insert (map.from_entries tree.old.entries) name whole) }
{
    tree.insert(name, whole)?;
    Ok(())
}

/// Adds copies of records. Of a name that stands twice the last one counts.
fn add_records(tree: &mut RecordTree, added: &[Added]) -> Result<(), NoMemory>
    ensures { OnOk result (map.from_entries {R = key_cmp} tree.new.entries ≡ with_added (map.from_entries tree.old.entries) added.now) }
{
    for item in added {
        let whole = item.whole.clone()?;
        put(tree, item.name, whole)?;
    }
    Ok(())
}

/// The records that a change adds, in its order.
pub fn added_by(change: &Change) -> &[Added]
    ensures { result.now ≡ added_by change.now }
{
    match change {
        Change::Write { added, .. } => added.as_slice(),
        Change::Create { .. } => &[],
        Change::Delete => &[],
        Change::Link { .. } => &[],
        Change::Repack { .. } => &[],
        Change::Prune { .. } => &[],
        Change::PackRefs { .. } => &[],
        Change::Unlink { .. } => &[],
    }
}

fn tree_of(alloc: Global, own: &[&Entry]) -> Result<RecordTree, NoMemory>
    ensures { IfOk result (λ tree. map.from_entries {R = key_cmp} tree.entries ≡ records_of (seen own.now)) }
{
    let mut tree = BTreeMap::new(alloc);
    for entry in own {
        add_records(&mut tree, added_by(&entry.change))?;
    }
    Ok(tree)
}

fn list_of(alloc: Global, tree: RecordTree) -> Result<AddedRecords, NoMemory>
    ensures list { IfOk result (λ list. list ≡ map_list to_added tree.entries) }
    ensures ordered { IsOrdered key_cmp tree }
{
    let items = tree
        .into_iter()
        .map(|(name, whole)| Added { name, whole })
        .collect(alloc)?;
    Ok(ListOf::from_vec(items))
}

fn has_records(change: &Change) -> bool
    ensures { result ≡ has_records change.now }
{
    match change {
        Change::Write { added, .. } => added.len() > 0,
        Change::Create { .. } => false,
        Change::Delete => false,
        Change::Link { .. } => false,
        Change::Repack { .. } => false,
        Change::Prune { .. } => false,
        Change::PackRefs { .. } => false,
        Change::Unlink { .. } => false,
    }
}

/// Whether entries add a record.
pub(crate) fn any_has_records(own: &[&Entry]) -> bool
    ensures { result ≡ list_any (λ e. has_records e.change) (seen own.now) }
{
    for entry in own {
        if has_records(&entry.change) {
            return true;
        }
    }
    false
}

/// Copies of the records that entries add, ascending by name.
pub(crate) fn records_of(alloc: Global, own: &[&Entry]) -> Result<AddedRecords, NoMemory>
    ensures { IfOk result (λ list. list ≡ map_list to_added (map.entries (records_of (seen own.now)))) }
{
    let tree = tree_of(alloc, own)?;
    list_of(alloc, tree)
}
