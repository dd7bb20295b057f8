// A plan, repository after repository.
ghost use Rattle.std.specs.Prelude.{◌≡◌, ◌+◌, ◌<◌, ◌^◌, ◌++◌, length, fold, map as map_list, IfOk, OnOk};
ghost use Rattle.gt_model.specs.Batches.{files_of, repos_at};
ghost use Rattle.gt_apply.specs.Plan.{numbered, filed_repo};
ghost use Rattle.gt_apply.specs.Steps.{seen, new_pack, files_in, contents_in, drafted, drafted_at, drafted_all};

use crate::entering::{begin, enter_all, place};
use crate::repos::{Own, repos_at};
use crate::shelves::Shelves;
use crate::writes::{Writes, writes_of};
use crate::{FileList, NewContent, NewFile};
use gt_disk::{loose_file, pack_file};
use gt_list::NoMemory;
use gt_model::{AddedRecords, Entry};
use gt_name::{Name, RefName, RepoPath};
use std::alloc::Global;

/// A plan so far: the files of each repository, the next free number, and the files that are added.
#[derive(Drop)]
pub(crate) struct Draft {
    pub(crate) shelves: Shelves,
    pub(crate) next: u64,
    pub(crate) files: FileList,
}

/// The pack of these records, if there is one, has the next number.
fn add_pack(files: &mut FileList, number: u64, pack: Option<AddedRecords>) -> Result<(), NoMemory>
    ensures { OnOk result (files.new ≡ files.old ++ numbered number (new_pack pack)) }
{
    match pack {
        None => Ok(()),
        Some(records) => files.push(NewFile {
            file: pack_file(number),
            content: NewContent::Pack(records),
        }),
    }
}

/// Adds the file of each reference, from this number on.
fn add_values(
    files: &mut FileList,
    number: u64,
    values: &[(RefName, Name)],
) -> Result<u64, NoMemory>
    requires { number + length values.now < 2 ^ 64 }
    ensures next { IfOk result (λ next. next ≡ number + length values.now) }
    ensures files { OnOk result (files.new ≡ files.old ++ numbered number (map_list (λ v. NewContent.Loose v.1) values.now)) }
{
    let mut next = number;
    for value in values {
        files.push(NewFile {
            file: loose_file(next),
            content: NewContent::Loose(value.1),
        })?;
        next += 1;
    }
    Ok(next)
}

/// Adds what is written to one repository, from this number on, and gives the next free one.
fn add_files(files: &mut FileList, number: u64, writes: Writes) -> Result<u64, NoMemory>
    requires { number + length (files_in writes) < 2 ^ 64 }
    ensures next { IfOk result (λ next. next ≡ number + length (files_in writes)) }
    ensures files { OnOk result (files.new ≡ files.old ++ numbered number (contents_in writes)) }
{
    let Writes { pack, values } = writes;
    let first = if pack.is_some() { number + 1 } else { number };
    add_pack(files, number, pack)?;
    add_values(files, first, values.as_slice())
}

/// The files of one repository's entries in the lists.
fn file_lists(
    alloc: Global,
    shelves: &mut Shelves,
    path: &RepoPath,
    number: u64,
    own: &[&Entry],
    writes: &Writes,
) -> Result<(), NoMemory>
    requires fits { number + length (files_in writes.now) < 2 ^ 64 }
    requires files { files_in writes.now ≡ files_of (seen own.now) }
    ensures { OnOk result (shelves.new ≡ filed_repo path.now number (seen own.now) shelves.old) }
{
    begin(alloc, shelves, own)?;
    place(alloc, shelves, path, number, writes)?;
    enter_all(alloc, shelves, own)
}

/// The entries of one repository.
fn file_repo(
    alloc: Global,
    path: &RepoPath,
    own: &[&Entry],
    draft: Draft,
) -> Result<Draft, NoMemory>
    requires { draft.next + length (files_of (seen own.now)) < 2 ^ 64 }
    ensures { IfOk result (λ d. d ≡ drafted path.now draft (seen own.now)) }
{
    let Draft {
        mut shelves,
        next,
        mut files,
    } = draft;
    let writes = writes_of(alloc, own)?;
    file_lists(alloc, &mut shelves, path, next, own, &writes)?;
    let next = add_files(&mut files, next, writes)?;
    Ok(Draft {
        shelves,
        next,
        files,
    })
}

/// The repositories of a path one after the other.
fn file_repos(
    alloc: Global,
    path: &RepoPath,
    repos: &[Own<'_>],
    draft: Draft,
) -> Result<Draft, NoMemory>
    requires { (fold (drafted path.now) draft (map_list seen repos.now)).next < 2 ^ 64 }
    ensures { IfOk result (λ d. d ≡ fold (drafted path.now) draft (map_list seen repos.now)) }
{
    let mut draft = draft;
    for own in repos {
        draft = file_repo(alloc, path, own.as_slice(), draft)?;
    }
    Ok(draft)
}

fn file_path(
    alloc: Global,
    entries: &[Entry],
    path: &RepoPath,
    draft: Draft,
) -> Result<Draft, NoMemory>
    requires { (drafted_at entries.now draft path.now).next < 2 ^ 64 }
    ensures { IfOk result (λ d. d ≡ drafted_at entries.now draft path.now) }
{
    let repos = repos_at(alloc, path, entries)?;
    file_repos(alloc, path, &repos, draft)
}

/// All entries, path after path.
pub(crate) fn file_paths(
    alloc: Global,
    entries: &[Entry],
    paths: &[RepoPath],
    draft: Draft,
) -> Result<Draft, NoMemory>
    requires { (drafted_all entries.now paths.now draft).next < 2 ^ 64 }
    ensures { IfOk result (λ d. d ≡ drafted_all entries.now paths.now draft) }
{
    let mut draft = draft;
    for path in paths {
        draft = file_path(alloc, entries, path, draft)?;
    }
    Ok(draft)
}
