ghost use Rattle.std.specs.Prelude.{◌≡◌, ◌+◌, length, sum_by, IfOk};
ghost use Rattle.std.specs.FinMap as map;
ghost use Rattle.gt_model.specs.Verdicts.{refs_in};
ghost use Rattle.gt_model.specs.Jobs.{tag_count, kept_count, repack_units, ref_units, unlink_units};

use crate::objects::{brought_objects, kept_names, owned};
use crate::tags::tag_count;
use gt_list::NoMemory;
use gt_name::{Name, RefName, RepoPath};
use gt_plain::PlainContent;
use std::alloc::Global;

pub(crate) fn sum(one: usize, other: usize) -> Result<usize, NoMemory>
    ensures { IfOk result (λ n. n ≡ one + other) }
{
    match one.checked_add(other) {
        Some(sum) => Ok(sum),
        None => Err(NoMemory),
    }
}

/// How many own objects stay: of a member those that its pool hasn't.
pub fn kept_count(alloc: Global, content: &PlainContent, path: &RepoPath) -> Result<usize, NoMemory>
    ensures { IfOk result (λ n. n ≡ kept_count content.now path.now) }
{
    let objects = owned(alloc, content, path)?;
    let names = kept_names(alloc, content, path, &objects)?;
    Ok(names.len())
}

/// One for each own object; of a member one more for each that stays.
pub fn repack_units(
    alloc: Global,
    content: &PlainContent,
    path: &RepoPath,
) -> Result<usize, NoMemory>
    ensures { IfOk result (λ n. n ≡ repack_units content.now path.now) }
{
    let objects = owned(alloc, content, path)?;
    if content.pool_of(path).is_none() {
        return Ok(objects.len());
    }
    let kept = kept_count(alloc, content, path)?;
    sum(objects.len(), kept)
}

fn units_of(
    alloc: Global,
    content: &PlainContent,
    path: &RepoPath,
    refs: &[(RefName, Name)],
) -> Result<usize, NoMemory>
    ensures { IfOk result (λ n. n ≡ sum_by (λ r. 1 + tag_count content.now path.now r.1) refs.now) }
{
    let mut units = 0;
    for item in refs {
        let tags = tag_count(alloc, content, path, &item.1)?;
        units = sum(units, sum(1, tags)?)?;
    }
    Ok(units)
}

pub(crate) fn refs_of(
    alloc: Global,
    content: &PlainContent,
    path: &RepoPath,
) -> Result<Vec<(RefName, Name)>, NoMemory>
    ensures { IfOk result (λ v. v.items ≡ map.entries (refs_in content.now path.now)) }
{
    match content.get(path) {
        Some(repo) => repo.refs().entries(alloc),
        None => Ok(Vec::new(alloc)),
    }
}

/// One for each reference and for each tag that is met from it.
pub fn ref_units(alloc: Global, content: &PlainContent, path: &RepoPath) -> Result<usize, NoMemory>
    ensures { IfOk result (λ n. n ≡ ref_units content.now path.now) }
{
    let refs = refs_of(alloc, content, path)?;
    units_of(alloc, content, path, &refs)
}

/// One for each object of its pool that it doesn't own.
pub fn unlink_units(
    alloc: Global,
    content: &PlainContent,
    path: &RepoPath,
) -> Result<usize, NoMemory>
    ensures { IfOk result (λ n. n ≡ unlink_units content.now path.now) }
{
    let objects = brought_objects(alloc, content, path)?;
    Ok(objects.len())
}
