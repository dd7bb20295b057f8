ghost use Rattle.std.specs.Prelude.{◌≡◌};
ghost use Rattle.gt_model.specs.Verdicts.{first_some, is_present};
ghost use Rattle.gt_verify.specs.Checks.{missing_value_of, missing_dep_of, Answers};

use crate::VerifyError;
use crate::needing::Needing;
use crate::target::target_of;
use gt_model::{Look, Needer, RefUpdate};
use gt_name::{Name, RepoPath};
use gt_stage::Stage;

/// Whether an object is visible or staged.
fn is_present<L: Look>(front: &L, path: &RepoPath, stage: &Stage, name: &Name) -> bool
    ensures { result ≡ is_present (L.content front.now) path.now stage.now.staged name.now }
{
    front.visible(path, name) || stage.own_record(name).is_some()
}

fn find_new_value<L: Look>(
    front: &L,
    path: &RepoPath,
    stage: &Stage,
    update: &RefUpdate,
) -> Result<(), VerifyError>
    ensures { Answers (missing_value_of (L.content front.now) path.now stage.now.staged update.now) result }
{
    let Some(new) = target_of(update) else {
        return Ok(());
    };
    if is_present(front, path, stage, &new) {
        return Ok(());
    }
    Err(VerifyError::MissingObject {
        name: new,
        needed_by: Needer::Ref(update.name.clone()?),
    })
}

/// The first new value that won't be there is refused.
pub(crate) fn find_new_values<L: Look>(
    front: &L,
    path: &RepoPath,
    stage: &Stage,
    refs: &[RefUpdate],
) -> Result<(), VerifyError>
    ensures { Answers (first_some (missing_value_of (L.content front.now) path.now stage.now.staged) refs.now) result }
{
    for update in refs {
        find_new_value(front, path, stage, update)?;
    }
    Ok(())
}

fn find_deps<L: Look>(
    front: &L,
    path: &RepoPath,
    stage: &Stage,
    needing: &Needing,
) -> Result<(), VerifyError>
    ensures { Answers (missing_dep_of (L.content front.now) path.now stage.now.staged needing.now) result }
{
    for dep in needing.deps.as_slice() {
        if !is_present(front, path, stage, dep) {
            return Err(VerifyError::MissingObject {
                name: *dep,
                needed_by: Needer::Object(needing.name),
            });
        }
    }
    Ok(())
}

/// The first object that a record mentions and that won't be there is refused.
pub(crate) fn find_all_deps<L: Look>(
    front: &L,
    path: &RepoPath,
    stage: &Stage,
    records: &[Needing],
) -> Result<(), VerifyError>
    ensures { Answers (first_some (missing_dep_of (L.content front.now) path.now stage.now.staged) records.now) result }
{
    for needing in records {
        find_deps(front, path, stage, needing)?;
    }
    Ok(())
}
