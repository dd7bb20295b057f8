ghost use Rattle.std.specs.Prelude.{◌≡◌, not, is_none, filter, map as map_list, IfOk};
ghost use Rattle.std.specs.FinMap as map;
ghost use Rattle.gt_model.specs.Contents.{own, own_of};
ghost use Rattle.gt_model.specs.Jobs.{owned, pooled, is_pooled, repacked, left_objects, brought_objects};

use gt_list::{ListOf, NoMemory};
use gt_name::{Name, Names, RepoPath};
use gt_object::Record;
use gt_plain::{PlainContent, PlainOwn};
use std::alloc::Global;

/// The own objects of a repository, ascending: names and records.
pub fn owned(
    alloc: Global,
    content: &PlainContent,
    path: &RepoPath,
) -> Result<Vec<(Name, Record)>, NoMemory>
    ensures { IfOk result (λ v. v.items ≡ owned content.now path.now) }
{
    match content.get(path) {
        Some(repo) => repo.own().entries(alloc),
        None => Ok(Vec::new(alloc)),
    }
}

/// The objects of its pool.
pub fn pooled(
    alloc: Global,
    content: &PlainContent,
    path: &RepoPath,
) -> Result<Vec<(Name, Record)>, NoMemory>
    ensures { IfOk result (λ v. v.items ≡ pooled content.now path.now) }
{
    match content.pool_of(path) {
        Some(pool) => owned(alloc, content, pool),
        None => Ok(Vec::new(alloc)),
    }
}

/// Whether its pool has the same bytes under the name.
fn is_pooled(content: &PlainContent, path: &RepoPath, name: &Name, whole: &Record) -> bool
    ensures { result ≡ is_pooled content.now path.now (name.now, whole.now) }
{
    let Some(pool) = content.pool_of(path) else {
        return false;
    };
    match content.own(pool, name) {
        Some(found) => found == whole,
        None => false,
    }
}

fn pooled_names(
    alloc: Global,
    content: &PlainContent,
    path: &RepoPath,
    objects: &[(Name, Record)],
) -> Result<Vec<Name>, NoMemory>
    ensures { IfOk result (λ v. v.items ≡ map_list (λ o. o.0) (filter (is_pooled content.now path.now) objects.now)) }
{
    let mut names = Vec::new(alloc);
    for object in objects {
        if is_pooled(content, path, &object.0, &object.1) {
            names.push(object.0)?;
        }
    }
    Ok(names)
}

/// The own names that its pool has too, ascending: what a repack drops.
pub fn repacked(alloc: Global, content: &PlainContent, path: &RepoPath) -> Result<Names, NoMemory>
    ensures { IfOk result (λ names. names ≡ repacked content.now path.now) }
{
    let objects = owned(alloc, content, path)?;
    let names = pooled_names(alloc, content, path, &objects)?;
    Ok(ListOf::from_vec(names))
}

/// The names that its pool hasn't.
pub(crate) fn kept_names(
    alloc: Global,
    content: &PlainContent,
    path: &RepoPath,
    objects: &[(Name, Record)],
) -> Result<Vec<Name>, NoMemory>
    ensures { IfOk result (λ v. v.items ≡ map_list (λ o. o.0) (filter (λ o. not (is_pooled content.now path.now o)) objects.now)) }
{
    let mut names = Vec::new(alloc);
    for object in objects {
        if !is_pooled(content, path, &object.0, &object.1) {
            names.push(object.0)?;
        }
    }
    Ok(names)
}

/// The objects that it doesn't own.
fn missing(
    alloc: Global,
    content: &PlainContent,
    path: &RepoPath,
    objects: &[(Name, Record)],
) -> Result<Vec<(Name, Record)>, NoMemory>
    ensures { IfOk result (λ v. v.items ≡ filter (λ o. is_none (own content.now path.now o.0)) objects.now) }
{
    let mut missing = Vec::new(alloc);
    for object in objects {
        if content.own(path, &object.0).is_none() {
            missing.push((object.0, object.1.clone()?))?;
        }
    }
    Ok(missing)
}

/// The objects of its pool that it doesn't own: what an unlink brings.
pub fn brought_objects(
    alloc: Global,
    content: &PlainContent,
    path: &RepoPath,
) -> Result<Vec<(Name, Record)>, NoMemory>
    ensures { IfOk result (λ v. v.items ≡ brought_objects content.now path.now) }
{
    let objects = pooled(alloc, content, path)?;
    missing(alloc, content, path, &objects)
}

fn own_of(alloc: Global, content: &PlainContent, path: &RepoPath) -> Result<PlainOwn, NoMemory>
    ensures { IfOk result (λ own. own ≡ own_of (map.get content.now path.now)) }
{
    match content.get(path) {
        Some(repo) => Ok(repo.own().clone()?),
        None => Ok(PlainOwn::new(alloc)),
    }
}

/// The own objects but for those that are dropped.
pub fn left_objects(
    alloc: Global,
    content: &PlainContent,
    path: &RepoPath,
    dropped: &[Name],
) -> Result<Vec<(Name, Record)>, NoMemory>
    ensures { IfOk result (λ v. v.items ≡ left_objects content.now path.now dropped.now) }
{
    let mut own = own_of(alloc, content, path)?;
    own.remove_all(dropped);
    own.entries(alloc)
}
