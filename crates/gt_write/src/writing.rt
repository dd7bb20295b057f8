ghost use Rattle.std.specs.Prelude.{◌≡◌, ◌++◌, ◌∷◌, [], IfOk, OnOk, Ok};
ghost use Rattle.gt_entry.specs.Fits.{HasSpelling};
ghost use Rattle.gt_model.specs.declared.change.Change.{Change as Changes};
ghost use Rattle.gt_model.specs.Contents.{Content};
ghost use Rattle.gt_model.specs.Verdicts.{verdict, added_records};
ghost use Rattle.gt_verify.specs.Refusing.{ready_of};
ghost use Rattle.gt_write.specs.Writing.{records_of};

use gt_list::{ListOf, NoMemory};
use gt_model::{Added, AddedRecords, Change, Entry};
use gt_name::{Name, Names, RepoPath};
use gt_stage::{Stage, law_stage};
use gt_verify::Ready;
use std::alloc::Global;

/// The greatest count of a list in an entry's spelling.
const MOST: usize = 4_294_967_295;

/// The entry that a good commit of a stage adds. A list of 2^32 items or more, which has no spelling, counts as want of
/// memory.
pub(crate) fn write_entry(
    alloc: Global,
    position: u64,
    path: &RepoPath,
    stage: &Stage,
    ready: Ready,
) -> Result<Entry, NoMemory>
    ensures entry { (c : Content) → verdict c path.now stage.now.staged ≡ Ok (ready_of ready) → IfOk result (λ e. e ≡ record { position = position; path = path.now; change = Changes.Write ready.refs ready.needed (added_records c path.now stage.now.staged) }) }
    ensures spelled { (c : Content) → verdict c path.now stage.now.staged ≡ Ok (ready_of ready) → IfOk result HasSpelling }
{
    law_stage(stage);
    let added = match added_of(alloc, stage, &ready.added) {
        Ok(added) => added,
        Err(error) => return Err(error),
    };
    if ready.refs.len() > MOST || ready.needed.len() > MOST || added.len() > MOST {
        return Err(NoMemory);
    }
    match path.clone() {
        Err(_) => Err(NoMemory),
        Ok(path) => Ok(Entry {
            position,
            path,
            change: Change::Write {
                refs: ready.refs,
                needed: ready.needed,
                added,
            },
        }),
    }
}

/// The staged records of these names, in their order.
fn added_of(alloc: Global, stage: &Stage, names: &Names) -> Result<AddedRecords, NoMemory>
    ensures { IfOk result (λ list. list ≡ records_of stage.now.staged names.now) }
{
    let mut list = ListOf::new(alloc);
    for name in names.as_slice() {
        add_record(&mut list, stage, name)?;
    }
    Ok(list)
}

/// Adds a copy of the record that is staged under a name, if there is one.
fn add_record(list: &mut AddedRecords, stage: &Stage, name: &Name) -> Result<(), NoMemory>
    ensures { OnOk result (list.new ≡ list.old ++ records_of stage.now.staged (name.now ∷ [])) }
{
    let Some(whole) = stage.own_record(name) else {
        return Ok(());
    };
    match whole.clone() {
        Ok(whole) => list.push(Added { name: *name, whole }),
        Err(_) => Err(NoMemory),
    }
}
