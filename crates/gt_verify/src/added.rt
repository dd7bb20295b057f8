ghost use Rattle.std.specs.Prelude.{◌≡◌, ◌<◌, ◌++◌, ◌∷◌, [], length, IfOk, OnOk, Some, map};
ghost use Rattle.std.specs.List.{slice_get};
ghost use Rattle.gt_model.specs.Verdicts.{added_records};
ghost use Rattle.gt_verify.specs.Checks.{unseen, names_of, record_name};

use crate::ascending::ascending;
use gt_list::NoMemory;
use gt_model::Look;
use gt_name::{Name, Names, RepoPath};
use gt_stage::Stage;
use std::alloc::Global;

/// The name of the record of this index.
pub(crate) fn record_name(stage: &Stage, i: usize) -> Name
    requires { i < length stage.now.staged.records }
    ensures { record_name stage.now.staged.records i ≡ Some result }
{
    match stage.record_at(i) {
        Some((name, _)) => name,
        None => unreachable!(),
    }
}

/// Notes a name that isn't visible.
fn note_new<L: Look>(
    names: &mut Names,
    front: &L,
    path: &RepoPath,
    name: Name,
) -> Result<(), NoMemory>
    ensures { OnOk result (names.new ≡ names.old ++ unseen (L.content front.now) path.now (name ∷ [])) }
{
    if front.visible(path, &name) {
        return Ok(());
    }
    names.push(name)
}

/// The names of the staged records that aren't visible, in order of first putting.
fn new_names<L: Look>(
    alloc: Global,
    front: &L,
    path: &RepoPath,
    stage: &Stage,
) -> Result<Names, NoMemory>
    ensures { IfOk result (λ names. names ≡ unseen (L.content front.now) path.now (names_of stage.now.staged.records)) }
{
    let mut names = Names::new(alloc);
    for i in 0..stage.records_len() {
        note_new(&mut names, front, path, record_name(stage, i))?;
    }
    Ok(names)
}

/// The names of the records that are added, ascending.
pub(crate) fn added_names<L: Look>(
    alloc: Global,
    front: &L,
    path: &RepoPath,
    stage: &Stage,
) -> Result<Names, NoMemory>
    ensures { IfOk result (λ names. names ≡ map (λ a. a.name) (added_records (L.content front.now) path.now stage.now.staged)) }
{
    let names = new_names(alloc, front, path, stage)?;
    ascending(alloc, names.as_slice())
}
