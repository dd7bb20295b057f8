ghost use Rattle.std.specs.Prelude.{◌≡◌, false, map, Err};
ghost use Rattle.gt_model.specs.Contents.{has_repo};
ghost use Rattle.gt_model.specs.Verdicts.{verdict, missing_dep};
ghost use Rattle.gt_stage.specs.Staging.{IsEachOnce};
ghost use Rattle.gt_verify.specs.Refusing.{IsVerdict};
ghost use Rattle.gt_verify.specs.Checks.{refs_failure, unless_failed, ready, Answers};

use crate::added::added_names;
use crate::directory::find_clashes;
use crate::missing::{find_all_deps, find_new_values};
use crate::needed::needed_names;
use crate::needing::all_needing;
use crate::old_values::find_old_values;
use crate::{Ready, VerifyError};
use gt_model::{Look, RefUpdate, RefUpdates};
use gt_name::RepoPath;
use gt_stage::{Stage, law_stage};
use std::alloc::Global;

/// What a commit of this stage comes to over the content that stands at the front. The checks are tried in this order,
/// and the first that fails is the answer:
///
/// 1. `RepositoryGone`: the content lacks the path.
/// 2. `ReferenceConflict`: in order of first staging, the first update or check whose old value isn't the value there.
/// 3. `DirectoryConflict`: all updates are laid over the references; a check lays nothing. In order of first staging, the
///    first update to a value whose name and a slash begin another reference's, or the other way round. `existing` is
///    the least such other reference in byte order.
/// 4. `MissingObject`: in order of first staging, the first new value that isn't zero and is neither visible nor staged.
///    Then, over the added records in order of name and what each mentions in its own order, the first that is neither.
///
/// `Memory` may come in place of any answer but `RepositoryGone`.
pub fn verdict<L: Look>(
    alloc: Global,
    front: &L,
    path: &RepoPath,
    stage: &Stage,
) -> Result<Ready, VerifyError>
    ensures is { IsVerdict (verdict (L.content front.now) path.now stage.now.staged) result }
    // No memory is wanted before this is known.
    ensures gone { has_repo (L.content front.now) path.now ≡ false → result ≡ Err VerifyError.RepositoryGone }
{
    if !front.has_repo(path) {
        return Err(VerifyError::RepositoryGone);
    }
    law_stage(stage);
    let refs = stage.refs(alloc)?;
    if let Err(e) = check_refs(alloc, front, path, stage, refs.as_slice()) {
        return Err(e);
    }
    check_records(alloc, front, path, stage, refs)
}

/// The checks of the updates.
fn check_refs<L: Look>(
    alloc: Global,
    front: &L,
    path: &RepoPath,
    stage: &Stage,
    refs: &[RefUpdate],
) -> Result<(), VerifyError>
    requires { IsEachOnce (map (λ u. u.name) refs.now) }
    ensures { Answers (refs_failure (L.content front.now) path.now stage.now.staged refs.now) result }
{
    find_old_values(front, path, refs)?;
    find_clashes(alloc, front, path, refs)?;
    find_new_values(front, path, stage, refs)
}

/// The check of the added records, and what the commit does where it passes.
fn check_records<L: Look>(
    alloc: Global,
    front: &L,
    path: &RepoPath,
    stage: &Stage,
    refs: RefUpdates,
) -> Result<Ready, VerifyError>
    requires { refs ≡ stage.now.staged.refs }
    ensures { IsVerdict (unless_failed (missing_dep (L.content front.now) path.now stage.now.staged) (ready (L.content front.now) path.now stage.now.staged)) result }
{
    let added = added_names(alloc, front, path, stage)?;
    let records = all_needing(alloc, stage, added.as_slice())?;
    if let Err(e) = find_all_deps(front, path, stage, records.as_slice()) {
        return Err(e);
    }
    let needed = needed_names(
        alloc,
        front,
        path,
        stage,
        refs.as_slice(),
        records.as_slice(),
    )?;
    Ok(Ready {
        refs,
        needed,
        added,
    })
}
