ghost use Rattle.std.specs.Prelude.{◌≡◌, map, OnOk, IfOk};
ghost use Rattle.std.specs.BTreeMap.{IsOrdered};
ghost use Rattle.std.specs.FinMap as finite;
ghost use Rattle.gt_model.specs.Contents.{key_cmp};
ghost use Rattle.gt_model.specs.Verdicts.{ascending};
ghost use Rattle.gt_plain.specs.Plain.{and_missing};

use crate::Text;
use gt_list::NoMemory;
use std::alloc::Global;
use std::collections::BTreeMap;

/// Sets a value where its key has none.
fn add_missing(tree: &mut BTreeMap<Text, Text>, key: Text, value: Text) -> Result<(), NoMemory>
    ensures { OnOk result (finite.from_entries {R = key_cmp} tree.new.entries ≡ and_missing (finite.from_entries tree.old.entries) (key, value)) }
{
    if tree.contains_key(&key) {
        return Ok(());
    }
    match tree.insert(key, value) {
        Ok(_) => Ok(()),
        Err(_) => Err(NoMemory),
    }
}

fn tree_of(alloc: Global, texts: &[Text]) -> Result<BTreeMap<Text, Text>, NoMemory>
    ensures { IfOk result (λ t. finite.from_entries {R = key_cmp} t.entries ≡ finite.from_entries (map (λ name. (name, name)) texts.now)) }
{
    let mut tree = BTreeMap::new(alloc);
    for text in texts {
        let key = Text::of(alloc, text.bytes())?;
        let value = Text::of(alloc, text.bytes())?;
        add_missing(&mut tree, key, value)?;
    }
    Ok(tree)
}

fn keys_of(alloc: Global, tree: &BTreeMap<Text, Text>) -> Result<Vec<Text>, NoMemory>
    ensures keys { IfOk result (λ v. v.items ≡ map (λ e. e.0) tree.now.entries) }
    ensures ordered { IsOrdered key_cmp tree.now }
{
    let mut keys = Vec::new(alloc);
    for key in tree.keys() {
        keys.push(Text::of(alloc, key.bytes())?)?;
    }
    Ok(keys)
}

/// Texts, ascending, each once.
pub(crate) fn ascending(alloc: Global, texts: &[Text]) -> Result<Vec<Text>, NoMemory>
    ensures { IfOk result (λ v. v.items ≡ ascending texts.now) }
{
    let tree = tree_of(alloc, texts)?;
    keys_of(alloc, &tree)
}
