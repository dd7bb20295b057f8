ghost use Rattle.std.specs.Prelude.{◌≡◌, filter, map as map_list, nat_le, IfOk, OnOk, OnErr};
ghost use Rattle.std.specs.BTreeMap.{IsOrdered};
ghost use Rattle.std.specs.FinMap as map;
ghost use Rattle.gt_model.specs.Contents.{key_cmp};
ghost use Rattle.gt_model.specs.NamedFiles.{refs_from};
ghost use Rattle.gt_plain.specs.Plain.{and_missing};

use gt_list::NoMemory;
use gt_plain_jobs::Text;
use std::alloc::Global;
use std::collections::BTreeMap;
use std::marker::Model;

/// The number of the file of each loose reference, by its name.
#[derive(Drop)]
pub struct PlainNumbers {
    tree: BTreeMap<Text, u64>,
}

impl Model for PlainNumbers {
    ghost use Rattle.std.specs.Prelude.{ℕ};
    ghost use Rattle.std.specs.FinMap as map;
    ghost use Rattle.std.specs.FinMap.{FinMap};
    ghost use Rattle.gt_model.specs.Contents.{key_cmp};
    ghost use Rattle.gt_plain_files.specs.Seen.{numbers_code};

    ghost Value = { FinMap key_cmp ℕ };

    ghost coded = { numbers_code };

    ghost view = { λ n. map.from_entries n.tree.entries };
}

impl PlainNumbers {
    /// None.
    pub fn new(alloc: Global) -> PlainNumbers
        ensures { result ≡ map.empty }
    {
        PlainNumbers {
            tree: BTreeMap::new(alloc),
        }
    }

    /// Sets the number of a name.
    pub fn set(&mut self, name: Text, number: u64) -> Result<(), NoMemory>
        ensures ok { OnOk result (self.new ≡ map.insert self.old name number) }
        ensures err { OnErr result (self.new ≡ self.old) }
    {
        self.tree.insert(name, number)?;
        Ok(())
    }

    /// A copy.
    pub fn copy(&self, alloc: Global) -> Result<PlainNumbers, NoMemory>
        ensures { IfOk result (λ n. n ≡ self.now) }
    {
        let tree = copied(alloc, &self.tree)?;
        Ok(PlainNumbers { tree })
    }

    /// Those from this number on.
    pub(crate) fn least(&self, alloc: Global, file: u64) -> Result<PlainNumbers, NoMemory>
        ensures { IfOk result (λ n. n ≡ refs_from file self.now) }
    {
        let tree = copied_from(alloc, &self.tree, file)?;
        Ok(PlainNumbers { tree })
    }

    /// The numbers, in order of the names.
    pub fn list(&self, alloc: Global) -> Result<Vec<u64>, NoMemory>
        ensures { IfOk result (λ v. v.items ≡ map_list (λ r. r.1) (map.entries self.now)) }
    {
        values_of(alloc, &self.tree)
    }
}

/// Sets a number where its name has none.
fn add_missing(tree: &mut BTreeMap<Text, u64>, name: Text, number: u64) -> Result<(), NoMemory>
    ensures { OnOk result (map.from_entries {R = key_cmp} tree.new.entries ≡ and_missing (map.from_entries tree.old.entries) (name, number)) }
{
    if tree.contains_key(&name) {
        return Ok(());
    }
    tree.insert(name, number)?;
    Ok(())
}

fn copied(alloc: Global, tree: &BTreeMap<Text, u64>) -> Result<BTreeMap<Text, u64>, NoMemory>
    ensures { IfOk result (λ t. map.from_entries {R = key_cmp} t.entries ≡ map.from_entries tree.now.entries) }
{
    let mut copy = BTreeMap::new(alloc);
    for (name, number) in tree.iter() {
        add_missing(&mut copy, Text::of(alloc, name.bytes())?, *number)?;
    }
    Ok(copy)
}

fn copied_from(
    alloc: Global,
    tree: &BTreeMap<Text, u64>,
    file: u64,
) -> Result<BTreeMap<Text, u64>, NoMemory>
    ensures copy { IfOk result (λ t. map.from_entries {R = key_cmp} t.entries ≡ map.from_entries (filter (λ r. nat_le file r.1) tree.now.entries)) }
    ensures ordered { IsOrdered key_cmp tree.now }
{
    let mut copy = BTreeMap::new(alloc);
    for (name, number) in tree.iter() {
        if file <= *number {
            add_missing(&mut copy, Text::of(alloc, name.bytes())?, *number)?;
        }
    }
    Ok(copy)
}

fn values_of(alloc: Global, tree: &BTreeMap<Text, u64>) -> Result<Vec<u64>, NoMemory>
    ensures values { IfOk result (λ v. v.items ≡ map_list (λ r. r.1) tree.now.entries) }
    ensures ordered { IsOrdered key_cmp tree.now }
{
    let mut numbers = Vec::new(alloc);
    for number in tree.values() {
        numbers.push(*number)?;
    }
    Ok(numbers)
}
