ghost use Rattle.std.specs.Prelude.{◌≡◌, [], Some, None, IfOk, not, find, if◌then◌else◌};
ghost use Rattle.std.specs.Option.{option_map};
ghost use Rattle.gt_object.specs.Whole.{deps};
ghost use Rattle.gt_model.specs.declared.needer.Needer.TheVariants.{Ref, Object};
ghost use Rattle.gt_model.specs.declared.refusal.Refusal.TheVariants.{ReferenceConflict, DirectoryConflict, MissingObject};
ghost use Rattle.gt_model.specs.Contents.{and_then, value_or_zero, finds_old, with_refs};
ghost use Rattle.gt_plain.specs.Plain.{staged};
ghost use Rattle.gt_model.specs.Verdicts.{first_some, target, clash_in, refs_in, is_present, conflict, directory, missing_value, missing_dep, failed};

use crate::needs::{added_records, deps_of};
use crate::present::{first_missing, is_present, target};
use crate::{PlainContent, PlainRefs};
use gt_list::NoMemory;
use gt_model::{Added, Needer, RefUpdate, Refusal};
use gt_name::RepoPath;
use std::alloc::Global;

fn conflict_at(
    content: &PlainContent,
    path: &RepoPath,
    update: &RefUpdate,
) -> Result<Option<Refusal>, NoMemory>
    ensures { let u = update.now in let found = value_or_zero content.now path.now u.name in
        IfOk result (λ o. o ≡ (if finds_old content.now path.now u then None else Some (ReferenceConflict u.name u.old found))) }
{
    if content.finds_old(path, update) {
        return Ok(None);
    }
    let actual = content.value_or_zero(path, &update.name);
    Ok(Some(Refusal::ReferenceConflict {
        name: update.name.clone()?,
        expected: update.old,
        actual,
    }))
}

/// The first update or check that doesn't find its old value.
fn conflict(
    content: &PlainContent,
    path: &RepoPath,
    refs: &[RefUpdate],
) -> Result<Option<Refusal>, NoMemory>
    ensures { IfOk result (λ o. o ≡ conflict content.now path.now (staged refs.now [])) }
{
    for update in refs {
        if let Some(refusal) = conflict_at(content, path, update)? {
            return Ok(Some(refusal));
        }
    }
    Ok(None)
}

fn directory_at(laid: &PlainRefs, update: &RefUpdate) -> Result<Option<Refusal>, NoMemory>
    ensures { let u = update.now in
        IfOk result (λ o. o ≡ and_then (target u) (λ new. option_map (DirectoryConflict u.name) (clash_in laid.now u.name))) }
{
    let Some(_) = target(update) else {
        return Ok(None);
    };
    match laid.clash_in(&update.name) {
        Some(existing) => Ok(Some(Refusal::DirectoryConflict {
            name: update.name.clone()?,
            existing: existing.clone()?,
        })),
        None => Ok(None),
    }
}

/// The references of a repository with updates made.
fn laid_refs(
    alloc: Global,
    content: &PlainContent,
    path: &RepoPath,
    refs: &[RefUpdate],
) -> Result<PlainRefs, NoMemory>
    ensures { IfOk result (λ r. r ≡ with_refs (refs_in content.now path.now) refs.now) }
{
    let mut laid = match content.get(path) {
        Some(repo) => repo.refs().clone()?,
        None => PlainRefs::new(alloc),
    };
    laid.update_all(refs)?;
    Ok(laid)
}

/// The first update to a value whose name clashes with a reference, once all updates are made.
fn directory(
    alloc: Global,
    content: &PlainContent,
    path: &RepoPath,
    refs: &[RefUpdate],
) -> Result<Option<Refusal>, NoMemory>
    ensures { IfOk result (λ o. o ≡ directory content.now path.now (staged refs.now [])) }
{
    let laid = laid_refs(alloc, content, path, refs)?;
    directory_in(&laid, refs)
}

fn directory_in(laid: &PlainRefs, refs: &[RefUpdate]) -> Result<Option<Refusal>, NoMemory>
    ensures { IfOk result (λ o. o ≡ first_some (λ u. and_then (target u) (λ new. option_map (DirectoryConflict u.name) (clash_in laid.now u.name))) refs.now) }
{
    for update in refs {
        if let Some(refusal) = directory_at(laid, update)? {
            return Ok(Some(refusal));
        }
    }
    Ok(None)
}

fn missing_value_at(
    content: &PlainContent,
    path: &RepoPath,
    records: &[Added],
    update: &RefUpdate,
) -> Result<Option<Refusal>, NoMemory>
    ensures { let u = update.now in let present = is_present content.now path.now (staged [] records.now) in
        IfOk result (λ o. o ≡ and_then (target u) (λ new. if present new then None else Some (MissingObject new (Ref u.name)))) }
{
    let Some(new) = target(update) else {
        return Ok(None);
    };
    if is_present(content, path, records, &new) {
        return Ok(None);
    }
    Ok(Some(Refusal::MissingObject {
        name: new,
        needed_by: Needer::Ref(update.name.clone()?),
    }))
}

/// The first new value that won't be there.
fn missing_value(
    content: &PlainContent,
    path: &RepoPath,
    refs: &[RefUpdate],
    records: &[Added],
) -> Result<Option<Refusal>, NoMemory>
    ensures { IfOk result (λ o. o ≡ missing_value content.now path.now (staged refs.now records.now)) }
{
    for update in refs {
        if let Some(refusal) = missing_value_at(content, path, records, update)? {
            return Ok(Some(refusal));
        }
    }
    Ok(None)
}

fn missing_dep_at(
    alloc: Global,
    content: &PlainContent,
    path: &RepoPath,
    records: &[Added],
    item: &Added,
) -> Result<Option<Refusal>, NoMemory>
    ensures { let a = item.now in let present = is_present content.now path.now (staged [] records.now) in
        IfOk result (λ o. o ≡ option_map (λ dep. MissingObject dep (Object a.name)) (find (λ dep. not (present dep)) (deps a.whole))) }
{
    let deps = deps_of(alloc, &item.whole)?;
    match first_missing(content, path, records, deps.as_slice()) {
        Some(name) => Ok(Some(Refusal::MissingObject {
            name: *name,
            needed_by: Needer::Object(item.name),
        })),
        None => Ok(None),
    }
}

/// The first object that an added record mentions and that won't be there.
fn missing_dep(
    alloc: Global,
    content: &PlainContent,
    path: &RepoPath,
    records: &[Added],
) -> Result<Option<Refusal>, NoMemory>
    ensures { IfOk result (λ o. o ≡ missing_dep content.now path.now (staged [] records.now)) }
{
    let added = added_records(alloc, content, path, records)?;
    missing_dep_of(alloc, content, path, records, added.as_slice())
}

/// The first object that one of these records mentions and that won't be there.
fn missing_dep_of(
    alloc: Global,
    content: &PlainContent,
    path: &RepoPath,
    records: &[Added],
    added: &[Added],
) -> Result<Option<Refusal>, NoMemory>
    ensures { let present = is_present content.now path.now (staged [] records.now) in
        IfOk result (λ o. o ≡ first_some (λ a. option_map (λ dep. MissingObject dep (Object a.name)) (find (λ dep. not (present dep)) (deps a.whole))) added.now) }
{
    for item in added {
        if let Some(refusal) = missing_dep_at(alloc, content, path, records, item)? {
            return Ok(Some(refusal));
        }
    }
    Ok(None)
}

/// The first check that fails.
pub(crate) fn failed(
    alloc: Global,
    content: &PlainContent,
    path: &RepoPath,
    refs: &[RefUpdate],
    records: &[Added],
) -> Result<Option<Refusal>, NoMemory>
    ensures { IfOk result (λ o. o ≡ failed content.now path.now (staged refs.now records.now)) }
{
    if !content.has_repo(path) {
        return Ok(Some(Refusal::RepositoryGone));
    }
    if let Some(refusal) = conflict(content, path, refs)? {
        return Ok(Some(refusal));
    }
    if let Some(refusal) = directory(alloc, content, path, refs)? {
        return Ok(Some(refusal));
    }
    if let Some(refusal) = missing_value(content, path, refs, records)? {
        return Ok(Some(refusal));
    }
    missing_dep(alloc, content, path, records)
}
