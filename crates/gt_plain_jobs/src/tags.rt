ghost use Rattle.std.specs.Prelude.{◌≡◌, ◌&&◌, is_some, is_none, filter, find, length, IfOk};
ghost use Rattle.gt_object.specs.Header.{header_of};
ghost use Rattle.gt_model.specs.Contents.{found};
ghost use Rattle.gt_model.specs.Jobs.{is_tag_header, tagged, next_of, chain, whole_chain, peel, peeled, tag_count};

use crate::objects::{owned, pooled};
use gt_list::NoMemory;
use gt_name::{Name, RepoPath};
use gt_object::{Kind, Record};
use gt_plain::{PlainContent, ascending, deps_of};
use std::alloc::Global;

fn is_tag(whole: &Record) -> bool
    ensures { result ≡ is_tag_header (header_of whole.now) }
{
    let _bytes = whole.bytes();
    match whole.kind() {
        Kind::Tag => true,
        Kind::Commit => false,
        Kind::Tree => false,
        Kind::Blob => false,
    }
}

/// The object that a record names as a tag.
fn tagged(alloc: Global, whole: &Record) -> Result<Option<Name>, NoMemory>
    ensures { IfOk result (λ o. o ≡ tagged whole.now) }
{
    if !is_tag(whole) {
        return Ok(None);
    }
    let deps = deps_of(alloc, whole)?;
    Ok(deps.at(0).copied())
}

/// What the tag of this name names.
fn next_of(
    alloc: Global,
    content: &PlainContent,
    path: &RepoPath,
    name: &Name,
) -> Result<Option<Name>, NoMemory>
    ensures { IfOk result (λ o. o ≡ next_of content.now path.now name.now) }
{
    match content.found(path, name) {
        Some(whole) => tagged(alloc, whole),
        None => Ok(None),
    }
}

/// The names from this one on of which each is named by the tag before it, so many and one.
fn chain(
    alloc: Global,
    content: &PlainContent,
    path: &RepoPath,
    count: usize,
    name: &Name,
) -> Result<Vec<Name>, NoMemory>
    ensures { IfOk result (λ v. v.items ≡ chain content.now path.now count name.now) }
{
    let mut names = Vec::new(alloc);
    let mut last = *name;
    for _at in 0..count {
        names.push(last)?;
        match next_of(alloc, content, path, &last)? {
            Some(next) => last = next,
            None => return Ok(names),
        }
    }
    names.push(last)?;
    Ok(names)
}

/// All of them.
fn whole_chain(
    alloc: Global,
    content: &PlainContent,
    path: &RepoPath,
    name: &Name,
) -> Result<Vec<Name>, NoMemory>
    ensures { IfOk result (λ v. v.items ≡ whole_chain content.now path.now name.now) }
{
    let own = owned(alloc, content, path)?;
    let other = pooled(alloc, content, path)?;
    let Some(count) = own.len().checked_add(other.len()) else {
        return Err(NoMemory);
    };
    chain(alloc, content, path, count, name)
}

/// Whether an object is found under the name, which is no tag.
fn is_end(
    alloc: Global,
    content: &PlainContent,
    path: &RepoPath,
    name: &Name,
) -> Result<bool, NoMemory>
    ensures { IfOk result (λ b. b ≡ (is_some (found content.now path.now name.now) && is_none (next_of content.now path.now name.now))) }
{
    let next = next_of(alloc, content, path, name)?;
    Ok(content.is_visible(path, name) && next.is_none())
}

fn first_end(
    alloc: Global,
    content: &PlainContent,
    path: &RepoPath,
    names: &[Name],
) -> Result<Option<Name>, NoMemory>
    ensures { IfOk result (λ o. o ≡ find (λ n. is_some (found content.now path.now n) && is_none (next_of content.now path.now n)) names.now) }
{
    for name in names {
        if is_end(alloc, content, path, name)? {
            return Ok(Some(*name));
        }
    }
    Ok(None)
}

/// The object at which the tags from a name on end.
pub fn peel(
    alloc: Global,
    content: &PlainContent,
    path: &RepoPath,
    name: &Name,
) -> Result<Option<Name>, NoMemory>
    ensures { IfOk result (λ o. o ≡ peel content.now path.now name.now) }
{
    let names = whole_chain(alloc, content, path, name)?;
    first_end(alloc, content, path, &names)
}

/// The name that stands behind a packed reference of this value.
pub fn peeled(
    alloc: Global,
    content: &PlainContent,
    path: &RepoPath,
    name: &Name,
) -> Result<Option<Name>, NoMemory>
    ensures { IfOk result (λ o. o ≡ peeled content.now path.now name.now) }
{
    match next_of(alloc, content, path, name)? {
        Some(_) => peel(alloc, content, path, name),
        None => Ok(None),
    }
}

/// The names of tags.
fn tags(
    alloc: Global,
    content: &PlainContent,
    path: &RepoPath,
    names: &[Name],
) -> Result<Vec<Name>, NoMemory>
    ensures { IfOk result (λ v. v.items ≡ filter (λ n. is_some (next_of content.now path.now n)) names.now) }
{
    let mut tags = Vec::new(alloc);
    for name in names {
        if next_of(alloc, content, path, name)?.is_some() {
            tags.push(*name)?;
        }
    }
    Ok(tags)
}

/// How many tags are met from a name on.
pub fn tag_count(
    alloc: Global,
    content: &PlainContent,
    path: &RepoPath,
    name: &Name,
) -> Result<usize, NoMemory>
    ensures { IfOk result (λ count. count ≡ tag_count content.now path.now name.now) }
{
    let names = whole_chain(alloc, content, path, name)?;
    let names = ascending(alloc, &names)?;
    let tags = tags(alloc, content, path, names.as_slice())?;
    Ok(tags.len())
}
