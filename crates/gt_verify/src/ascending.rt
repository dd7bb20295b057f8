ghost use Rattle.std.specs.Prelude.{◌≡◌, IfOk};
ghost use Rattle.gt_model.specs.Verdicts.{ascending};

use gt_list::NoMemory;
use gt_name::{Name, Names};
use std::alloc::Global;
use std::collections::BTreeSet;

fn set_of(alloc: Global, names: &[Name]) -> Result<BTreeSet<Name>, NoMemory>
    ensures { IfOk result (λ set. set.keys ≡ ascending names.now) }
{
    let mut set = BTreeSet::new(alloc);
    for name in names {
        match set.insert(*name) {
            Ok(_) => {}
            Err(_) => return Err(NoMemory),
        }
    }
    Ok(set)
}

/// The names in order, each once.
pub(crate) fn ascending(alloc: Global, names: &[Name]) -> Result<Names, NoMemory>
    ensures { IfOk result (λ list. list ≡ ascending names.now) }
{
    let set = set_of(alloc, names)?;
    let mut list = Names::new(alloc);
    for name in &set {
        list.push(*name)?;
    }
    Ok(list)
}
