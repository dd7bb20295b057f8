// Where the records that entries add to one repository stand in their pack.
ghost use Rattle.std.specs.Prelude.{◌≡◌, None, IfOk, OnOk};
ghost use Rattle.std.specs.BTreeMap.{IsOrdered};
ghost use Rattle.std.specs.FinMap as map;
ghost use Rattle.gt_apply.specs.Steps.{seen};
ghost use Rattle.gt_model.specs.Contents.{key_cmp};
ghost use Rattle.gt_moves.specs.Laying.{with_lengths, lengths_of, spaced};
ghost use Rattle.gt_moves.specs.Moves.{laid_out};
ghost use Rattle.gt_pack.specs.Index.{Rises};

use gt_apply::added_by;
use gt_list::{ListOf, NoMemory};
use gt_model::{Added, Entry};
use gt_name::Name;
use gt_pack::Placed;
use std::alloc::Global;
use std::collections::BTreeMap;

/// The length of each record.
type LengthTree = BTreeMap<Name, u32>;

type LengthList = ListOf<(Name, u32)>;

/// What stands before the items of a pack: its magic and the count of its records.
const HEAD: u64 = 8;

/// What stands before the record of an item: its name and its length.
const BEFORE: u64 = 24;

fn put(tree: &mut LengthTree, name: Name, len: u32) -> Result<(), NoMemory>
    ensures { OnOk result (map.from_entries {R = key_cmp} tree.new.entries ≡ map.insert (map.from_entries tree.old.entries) name len) }
{
    tree.insert(name, len)?;
    Ok(())
}

/// Adds the lengths of records. Of a name that stands twice the last one counts.
fn add_records(tree: &mut LengthTree, added: &[Added]) -> Result<(), NoMemory>
    ensures { OnOk result (map.from_entries {R = key_cmp} tree.new.entries ≡ with_lengths (map.from_entries tree.old.entries) added.now) }
{
    for item in added {
        let Ok(len) = u32::try_from(item.whole.bytes().len()) else {
            return Err(NoMemory);
        };
        put(tree, item.name, len)?;
    }
    Ok(())
}

fn tree_of(alloc: Global, own: &[&Entry]) -> Result<LengthTree, NoMemory>
    ensures { IfOk result (λ tree. map.from_entries {R = key_cmp} tree.entries ≡ lengths_of (seen own.now)) }
{
    let mut tree = BTreeMap::new(alloc);
    for entry in own {
        add_records(&mut tree, added_by(&entry.change))?;
    }
    Ok(tree)
}

fn list_of(alloc: Global, tree: LengthTree) -> Result<LengthList, NoMemory>
    ensures list { IfOk result (λ list. list ≡ tree.entries) }
    ensures ordered { IsOrdered key_cmp tree }
{
    let items = tree.into_iter().collect(alloc)?;
    Ok(ListOf::from_vec(items))
}

/// The lengths of the records that entries add, ascending by name.
fn lengths_of(alloc: Global, own: &[&Entry]) -> Result<LengthList, NoMemory>
    ensures { IfOk result (λ list. list ≡ map.entries (lengths_of (seen own.now))) }
{
    let tree = tree_of(alloc, own)?;
    list_of(alloc, tree)
}

/// The places of records of these lengths, one after the other in a pack. A place past every file's end is want of memory.
fn spaced(alloc: Global, lengths: &[(Name, u32)]) -> Result<ListOf<Placed>, NoMemory>
    ensures { IfOk result (λ places. places ≡ spaced 8 lengths.now) }
{
    let mut places = ListOf::new(alloc);
    let mut next = HEAD;
    for item in lengths {
        let Some(place) = next.checked_add(BEFORE) else {
            return Err(NoMemory);
        };
        let Some(end) = place.checked_add(u64::from(item.1)) else {
            return Err(NoMemory);
        };
        places.push(Placed {
            name: item.0,
            place,
            len: item.1,
        })?;
        next = end;
    }
    Ok(places)
}

/// Where the records that entries add to one repository stand in their pack, ascending by name.
pub(crate) fn laid_out(alloc: Global, own: &[&Entry]) -> Result<ListOf<Placed>, NoMemory>
    ensures places { IfOk result (λ places. places ≡ laid_out (seen own.now)) }
    ensures rises { IfOk result (λ places. Rises None places) }
{
    let lengths = lengths_of(alloc, own)?;
    spaced(alloc, lengths.as_slice())
}
