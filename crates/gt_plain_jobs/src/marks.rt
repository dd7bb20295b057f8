ghost use Rattle.std.specs.Prelude.{◌≡◌, [], ◌++◌, map as map_list, slice_get, IfOk, OnOk};
ghost use Rattle.std.specs.List.{list_any};
ghost use Rattle.std.specs.FinMap as map;
ghost use Rattle.gt_model.specs.Verdicts.{same_name, refs_in};
ghost use Rattle.gt_model.specs.Jobs.{owned, same_pair, IsMarked};
ghost use Rattle.gt_plain_jobs.specs.Marking.{with_pair, with_names, mentioned, referred, own_names, root_names, with_roots, followed};

use crate::conflicts::has_pool;
use crate::objects::owned;
use crate::units::refs_of;
use gt_list::{ListOf, NoMemory};
use gt_name::{Name, Names, RefName, RepoPath};
use gt_object::Record;
use gt_plain::{PlainContent, deps_of};
use std::alloc::Global;

fn has_pair(pairs: &[(RepoPath, Name)], at: &RepoPath, name: &Name) -> bool
    ensures { result ≡ list_any (same_pair (at.now, name.now)) pairs.now }
{
    pairs.iter().any(|pair| at == &pair.0 && name == &pair.1)
}

/// Adds a pair where it isn't there.
fn add_pair(pairs: &mut Vec<(RepoPath, Name)>, at: &RepoPath, name: &Name) -> Result<(), NoMemory>
    ensures { OnOk result (pairs.new.items ≡ with_pair pairs.old.items (at.now, name.now)) }
{
    if has_pair(pairs, at, name) {
        return Ok(());
    }
    pairs.push((at.clone()?, *name))?;
    Ok(())
}

/// Adds names of one repository.
fn add_names(
    pairs: &mut Vec<(RepoPath, Name)>,
    at: &RepoPath,
    names: &[Name],
) -> Result<(), NoMemory>
    ensures { OnOk result (pairs.new.items ≡ with_names at.now pairs.old.items names.now) }
{
    for name in names {
        add_pair(pairs, at, name)?;
    }
    Ok(())
}

/// What the record mentions that is seen under a name.
fn mentioned(
    alloc: Global,
    content: &PlainContent,
    at: &RepoPath,
    name: &Name,
) -> Result<Names, NoMemory>
    ensures { IfOk result (λ names. names ≡ mentioned content.now at.now name.now) }
{
    match content.found(at, name) {
        Some(whole) => deps_of(alloc, whole),
        None => Ok(ListOf::new(alloc)),
    }
}

fn values_of(alloc: Global, refs: &[(RefName, Name)]) -> Result<Vec<Name>, NoMemory>
    ensures { IfOk result (λ v. v.items ≡ map_list (λ r. r.1) refs.now) }
{
    let names = refs.iter().map(|item| item.1).collect(alloc)?;
    Ok(names)
}

/// What the references of a repository name.
fn referred(alloc: Global, content: &PlainContent, at: &RepoPath) -> Result<Vec<Name>, NoMemory>
    ensures { IfOk result (λ v. v.items ≡ referred content.now at.now) }
{
    let refs = refs_of(alloc, content, at)?;
    values_of(alloc, &refs)
}

fn names_of(alloc: Global, objects: &[(Name, Record)]) -> Result<Vec<Name>, NoMemory>
    ensures { IfOk result (λ v. v.items ≡ map_list (λ o. o.0) objects.now) }
{
    let names = objects.iter().map(|object| object.0).collect(alloc)?;
    Ok(names)
}

pub(crate) fn own_names(
    alloc: Global,
    content: &PlainContent,
    at: &RepoPath,
) -> Result<Vec<Name>, NoMemory>
    ensures { IfOk result (λ v. v.items ≡ own_names content.now at.now) }
{
    let objects = owned(alloc, content, at)?;
    names_of(alloc, &objects)
}

/// What the references of a member name, and all that it owns.
fn member_names(alloc: Global, content: &PlainContent, at: &RepoPath) -> Result<Vec<Name>, NoMemory>
    ensures { IfOk result (λ v. v.items ≡ referred content.now at.now ++ own_names content.now at.now) }
{
    let mut names = referred(alloc, content, at)?;
    let own = own_names(alloc, content, at)?;
    names.extend_from_slice(&own)?;
    Ok(names)
}

/// The names with which the marks of the first repository begin in the second.
fn root_names(
    alloc: Global,
    content: &PlainContent,
    path: &RepoPath,
    at: &RepoPath,
) -> Result<Vec<Name>, NoMemory>
    ensures { IfOk result (λ v. v.items ≡ root_names content.now path.now at.now) }
{
    if has_pool(content, at, path) {
        return member_names(alloc, content, at);
    }
    if at == path {
        return referred(alloc, content, at);
    }
    Ok(Vec::new(alloc))
}

fn add_roots(
    alloc: Global,
    content: &PlainContent,
    path: &RepoPath,
    pairs: &mut Vec<(RepoPath, Name)>,
    paths: &[RepoPath],
) -> Result<(), NoMemory>
    ensures { OnOk result (pairs.new.items ≡ with_roots content.now path.now pairs.old.items paths.now) }
{
    for at in paths {
        let names = root_names(alloc, content, path, at)?;
        add_names(pairs, at, &names)?;
    }
    Ok(())
}

/// The pairs with which the marks of a repository begin.
fn roots(
    alloc: Global,
    content: &PlainContent,
    path: &RepoPath,
) -> Result<Vec<(RepoPath, Name)>, NoMemory>
    ensures { IfOk result (λ v. v.items ≡ with_roots content.now path.now [] (map.keys content.now)) }
{
    let paths = content.paths(alloc)?;
    let mut pairs = Vec::new(alloc);
    add_roots(alloc, content, path, &mut pairs, &paths)?;
    Ok(pairs)
}

/// Adds what the record of the pair at this index mentions.
fn follow(
    alloc: Global,
    content: &PlainContent,
    pairs: &mut Vec<(RepoPath, Name)>,
    index: usize,
) -> Result<(), NoMemory>
    ensures { OnOk result (pairs.new.items ≡ followed content.now pairs.old.items (slice_get pairs.old.items index)) }
{
    let Some(pair) = pairs.get(index) else {
        return Ok(());
    };
    let at = pair.0.clone()?;
    let names = mentioned(alloc, content, &pair.0, &pair.1)?;
    add_names(pairs, &at, names.as_slice())
}

/// What a prune marks: pairs of a repository and a name, each once. Roots come first, and behind them what the record of each
/// pair mentions, pair by pair.
pub fn marked(
    alloc: Global,
    content: &PlainContent,
    path: &RepoPath,
) -> Result<Vec<(RepoPath, Name)>, NoMemory>
    ensures { IfOk result (λ v. IsMarked content.now path.now v.items) }
{
    let mut pairs = roots(alloc, content, path)?;
    for index in 0..usize::MAX {
        if pairs.len() <= index {
            return Ok(pairs);
        }
        follow(alloc, content, &mut pairs, index)?;
    }
    Ok(pairs)
}
