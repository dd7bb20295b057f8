ghost use Rattle.std.specs.Prelude.{◌≡◌, ◌++◌, ◌∷◌, [], IfOk, OnOk};
ghost use Rattle.gt_verify.specs.Checks.{needing_of, all_needing};

use gt_list::{ListOf, NoMemory};
use gt_name::{Name, Names};
use gt_stage::Stage;
use std::alloc::Global;

/// A record that is added, by its name, and the objects that it mentions.
#[derive(Drop)]
pub(crate) struct Needing {
    pub(crate) name: Name,
    pub(crate) deps: Names,
}

/// What the record that is staged under a name mentions.
fn read_needing(alloc: Global, stage: &Stage, name: &Name) -> Result<Option<Needing>, NoMemory>
    ensures { IfOk result (λ needing. needing ≡ needing_of stage.now.staged.records name.now) }
{
    match stage.own_record(name) {
        None => Ok(None),
        Some(whole) => match whole.deps(alloc) {
            Ok(deps) => Ok(Some(Needing { name: *name, deps })),
            Err(_) => Err(NoMemory),
        },
    }
}

fn add_needing(
    alloc: Global,
    list: &mut ListOf<Needing>,
    stage: &Stage,
    name: &Name,
) -> Result<(), NoMemory>
    ensures { OnOk result (list.new ≡ list.old ++ all_needing stage.now.staged.records (name.now ∷ [])) }
{
    match read_needing(alloc, stage, name) {
        Ok(Some(record)) => list.push(record),
        Ok(None) => Ok(()),
        Err(e) => Err(e),
    }
}

/// What the records of these names mention, in their order.
pub(crate) fn all_needing(
    alloc: Global,
    stage: &Stage,
    names: &[Name],
) -> Result<ListOf<Needing>, NoMemory>
    ensures { IfOk result (λ list. list ≡ all_needing stage.now.staged.records names.now) }
{
    let mut list = ListOf::new(alloc);
    for name in names {
        add_needing(alloc, &mut list, stage, name)?;
    }
    Ok(list)
}
