ghost use Rattle.std.specs.Prelude.{◌≡◌};
ghost use Rattle.gt_model.specs.Verdicts.{first_some};
ghost use Rattle.gt_verify.specs.Checks.{conflict_of, Answers};

use crate::VerifyError;
use gt_model::{Look, RefUpdate};
use gt_name::{Name, RepoPath};

/// Whether an update or a check finds its old value.
fn find_old_value<L: Look>(
    front: &L,
    path: &RepoPath,
    update: &RefUpdate,
) -> Result<(), VerifyError>
    ensures { Answers (conflict_of (L.content front.now) path.now update.now) result }
{
    let actual = front.value(path, &update.name).unwrap_or(Name::ZERO);
    if update.old == actual {
        return Ok(());
    }
    Err(VerifyError::ReferenceConflict {
        name: update.name.clone()?,
        expected: update.old,
        actual,
    })
}

/// The first update or check that doesn't find its old value is refused.
pub(crate) fn find_old_values<L: Look>(
    front: &L,
    path: &RepoPath,
    refs: &[RefUpdate],
) -> Result<(), VerifyError>
    ensures { Answers (first_some (conflict_of (L.content front.now) path.now) refs.now) result }
{
    for update in refs {
        find_old_value(front, path, update)?;
    }
    Ok(())
}
