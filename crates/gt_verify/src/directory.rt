ghost use Rattle.std.specs.Prelude.{◌≡◌, map};
ghost use Rattle.std.specs.Option.{option_copied};
ghost use Rattle.gt_model.specs.Contents.{Names, with_refs};
ghost use Rattle.gt_model.specs.Verdicts.{first_some, refs_in};
ghost use Rattle.gt_stage.specs.Staging.{IsEachOnce};
ghost use Rattle.gt_verify.specs.Checks.{directory_of, Answers};
ghost use Rattle.gt_verify.specs.Folders.{Lays, least_of};

use crate::VerifyError;
use crate::laid::{moved_names, target_names};
use crate::sorted::SortedRefs;
use crate::target::target_of;
use gt_model::{Look, RefUpdate};
use gt_name::{Names2, RefName, RepoPath};
use std::alloc::Global;

/// The lesser of two names.
fn least<'a>(one: Option<&'a RefName>, other: Option<&'a RefName>) -> Option<&'a RefName>
    ensures { option_copied result ≡ least_of (option_copied one.entry) (option_copied other.entry) }
{
    match (one, other) {
        (None, _) => other,
        (Some(_), None) => one,
        (Some(x), Some(y)) => { if x <= y { one } else { other } }
    }
}

/// Whether the reference of an update would stand in another one's folder or the other way round: one that is moved to a
/// value, or one of the content that isn't moved.
fn find_clash<L: Look>(
    alloc: Global,
    front: &L,
    path: &RepoPath,
    gone: &Names2,
    targets: &SortedRefs,
    update: &RefUpdate,
) -> Result<(), VerifyError>
    ensures { (laid : Names) → Lays (refs_in (L.content front.now) path.now) gone.now targets.now laid → Answers (directory_of laid update.now) result }
{
    if target_of(update).is_none() {
        return Ok(());
    }
    let staged = targets.clash(alloc, &update.name)?;
    let there = front.clash(path, &update.name, gone);
    match least(staged, there) {
        None => Ok(()),
        Some(existing) => Err(VerifyError::DirectoryConflict {
            name: update.name.clone()?,
            existing: existing.clone()?,
        }),
    }
}

/// The first update to a value whose reference clashes with one that will be there is refused.
pub(crate) fn find_clashes<L: Look>(
    alloc: Global,
    front: &L,
    path: &RepoPath,
    refs: &[RefUpdate],
) -> Result<(), VerifyError>
    requires { IsEachOnce (map (λ u. u.name) refs.now) }
    ensures { Answers (first_some (directory_of (with_refs (refs_in (L.content front.now) path.now) refs.now)) refs.now) result }
{
    // `clash` looks names up by halving where they ascend.
    let gone = SortedRefs::of(moved_names(alloc, refs)?)?.into_list();
    let targets = SortedRefs::of(target_names(alloc, refs)?)?;
    for update in refs {
        if let Err(e) = find_clash(alloc, front, path, &gone, &targets, update) {
            return Err(e);
        }
    }
    Ok(())
}
