ghost use Rattle.std.specs.Prelude.{◌≡◌, ◌++◌, ◌∷◌, [], IfOk, OnOk};
ghost use Rattle.gt_model.specs.Verdicts.{is_added};
ghost use Rattle.gt_verify.specs.Checks.{old_ones, values_of, names_of, deps_of, needed_of};

use crate::added::record_name;
use crate::ascending::ascending;
use crate::needing::Needing;
use crate::target::target_of;
use gt_list::NoMemory;
use gt_model::{Look, RefUpdate};
use gt_name::{Name, Names, RepoPath};
use gt_stage::Stage;
use std::alloc::Global;

fn is_added<L: Look>(front: &L, path: &RepoPath, stage: &Stage, name: &Name) -> bool
    ensures { result ≡ is_added (L.content front.now) path.now stage.now.staged name.now }
{
    stage.own_record(name).is_some() && !front.visible(path, name)
}

/// Notes the names that aren't added.
fn note<L: Look>(
    names: &mut Names,
    front: &L,
    path: &RepoPath,
    stage: &Stage,
    more: &[Name],
) -> Result<(), NoMemory>
    ensures { OnOk result (names.new ≡ names.old ++ old_ones (L.content front.now) path.now stage.now.staged more.now) }
{
    for name in more {
        if !is_added(front, path, stage, name) {
            names.push(*name)?;
        }
    }
    Ok(())
}

fn note_value<L: Look>(
    names: &mut Names,
    front: &L,
    path: &RepoPath,
    stage: &Stage,
    update: &RefUpdate,
) -> Result<(), NoMemory>
    ensures { OnOk result (names.new ≡ names.old ++ old_ones (L.content front.now) path.now stage.now.staged (values_of (update.now ∷ []))) }
{
    match target_of(update) {
        Some(new) => note(names, front, path, stage, &[new]),
        None => Ok(()),
    }
}

fn note_values<L: Look>(
    names: &mut Names,
    front: &L,
    path: &RepoPath,
    stage: &Stage,
    refs: &[RefUpdate],
) -> Result<(), NoMemory>
    ensures { OnOk result (names.new ≡ names.old ++ old_ones (L.content front.now) path.now stage.now.staged (values_of refs.now)) }
{
    for update in refs {
        note_value(names, front, path, stage, update)?;
    }
    Ok(())
}

fn note_records<L: Look>(
    names: &mut Names,
    front: &L,
    path: &RepoPath,
    stage: &Stage,
) -> Result<(), NoMemory>
    ensures { OnOk result (names.new ≡ names.old ++ old_ones (L.content front.now) path.now stage.now.staged (names_of stage.now.staged.records)) }
{
    for i in 0..stage.records_len() {
        note(names, front, path, stage, &[record_name(stage, i)])?;
    }
    Ok(())
}

fn note_deps<L: Look>(
    names: &mut Names,
    front: &L,
    path: &RepoPath,
    stage: &Stage,
    records: &[Needing],
) -> Result<(), NoMemory>
    ensures { OnOk result (names.new ≡ names.old ++ old_ones (L.content front.now) path.now stage.now.staged (deps_of records.now)) }
{
    for needing in records {
        note(names, front, path, stage, needing.deps.as_slice())?;
    }
    Ok(())
}

/// The names that a commit relies on and doesn't add, ascending.
pub(crate) fn needed_names<L: Look>(
    alloc: Global,
    front: &L,
    path: &RepoPath,
    stage: &Stage,
    refs: &[RefUpdate],
    records: &[Needing],
) -> Result<Names, NoMemory>
    ensures { IfOk result (λ names. names ≡ needed_of (L.content front.now) path.now stage.now.staged refs.now records.now) }
{
    let mut names = Names::new(alloc);
    note_values(&mut names, front, path, stage, refs)?;
    note_records(&mut names, front, path, stage)?;
    note_deps(&mut names, front, path, stage, records)?;
    ascending(alloc, names.as_slice())
}
