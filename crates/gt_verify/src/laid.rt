ghost use Rattle.std.specs.Prelude.{◌≡◌, ◌++◌, ◌∷◌, [], IfOk, OnOk};
ghost use Rattle.gt_verify.specs.Folders.{moved_names, target_names};

use crate::target::target_of;
use gt_list::NoMemory;
use gt_model::RefUpdate;
use gt_name::RefName;
use std::alloc::Global;

fn add_moved(names: &mut Vec<RefName>, update: &RefUpdate) -> Result<(), NoMemory>
    ensures { OnOk result (names.new.items ≡ names.old.items ++ moved_names (update.now ∷ [])) }
{
    if update.new.is_none() {
        return Ok(());
    }
    let name = update.name.clone()?;
    match names.push(name) {
        Ok(()) => Ok(()),
        Err(_) => Err(NoMemory),
    }
}

/// The references that updates move, also by a deletion.
pub(crate) fn moved_names(alloc: Global, refs: &[RefUpdate]) -> Result<Vec<RefName>, NoMemory>
    ensures { IfOk result (λ names. names.items ≡ moved_names refs.now) }
{
    let mut names = Vec::new(alloc);
    for update in refs {
        add_moved(&mut names, update)?;
    }
    Ok(names)
}

fn add_target(names: &mut Vec<RefName>, update: &RefUpdate) -> Result<(), NoMemory>
    ensures { OnOk result (names.new.items ≡ names.old.items ++ target_names (update.now ∷ [])) }
{
    if target_of(update).is_none() {
        return Ok(());
    }
    let name = update.name.clone()?;
    match names.push(name) {
        Ok(()) => Ok(()),
        Err(_) => Err(NoMemory),
    }
}

/// The references that updates move to a value.
pub(crate) fn target_names(alloc: Global, refs: &[RefUpdate]) -> Result<Vec<RefName>, NoMemory>
    ensures { IfOk result (λ names. names.items ≡ target_names refs.now) }
{
    let mut names = Vec::new(alloc);
    for update in refs {
        add_target(&mut names, update)?;
    }
    Ok(names)
}
