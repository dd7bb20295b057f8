ghost use Rattle.std.specs.Prelude.{◌≡◌, ◌≤◌, ◌+◌, ◌&&◌, Ok, OnErr, length, bytes_eq};
ghost use Rattle.std.specs.List.{list_any};
ghost use Rattle.gt_bytes.specs.Answers.{Fails, MemoryAfter};
ghost use Rattle.gt_manifest.specs.Whole.{seen, Goes, past, walk, number_here, packed_here, loose_here, pool_stands, pool_size, pool_here, lasts_size, repo_here, whole};

use crate::manifest::{Loose, Manifest, RepoFiles};
use crate::version::Version;
use gt_bytes::FieldError;
use gt_name::RepoPath;
use std::alloc::Global;
use std::collections::BTreeSet;

/// How far the fields have been gone through: the file numbers so far, and the place of the next field.
#[derive(Drop)]
pub(crate) struct Cursor {
    numbers: BTreeSet<u64>,
    at: usize,
}

/// Passes over bytes. They stand in memory, so no place is past the greatest number; if one were, memory couldn't have it.
fn past(gone: Cursor, size: usize) -> Result<Cursor, FieldError>
    ensures { Goes result (Ok (past (seen gone) size)) }
{
    match gone.at.checked_add(size) {
        Some(at) => Ok(Cursor {
            numbers: gone.numbers,
            at,
        }),
        None => Err(FieldError::Memory),
    }
}

/// A file number, which must be from 1 to `next - 1` and new.
fn number(next: u64, gone: Cursor, number: u64) -> Result<Cursor, FieldError>
    ensures goes { Goes result (number_here next (seen gone) number) }
    ensures memory { MemoryAfter result (number_here next (seen gone) number) }
{
    let Cursor { mut numbers, at } = gone;
    if number < 1 {
        return Err(FieldError::BadField { at });
    }
    if number >= next {
        return Err(FieldError::BadField { at });
    }
    if numbers.contains(&number) {
        return Err(FieldError::BadField { at });
    }
    match numbers.insert(number) {
        Err(_) => Err(FieldError::Memory),
        Ok(_) => past(Cursor { numbers, at }, 8),
    }
}

/// The packed file, if there is one.
fn packed(next: u64, gone: Cursor, file: u64) -> Result<Cursor, FieldError>
    ensures goes { Goes result (packed_here next (seen gone) file) }
    ensures memory { MemoryAfter result (packed_here next (seen gone) file) }
{
    if file == 0 {
        past(gone, 8)
    } else {
        number(next, gone, file)
    }
}

fn packs(next: u64, gone: Cursor, packs: &[u64]) -> Result<Cursor, FieldError>
    ensures { Goes result (walk (number_here next) (seen gone) packs.now) }
{
    let mut gone = gone;
    'packs: for pack in packs {
        gone = number(next, gone, *pack)?;
    }
    Ok(gone)
}

/// The file of a reference, behind its name.
fn loose_file(next: u64, gone: Cursor, loose: &Loose) -> Result<Cursor, FieldError>
    ensures { Goes result (loose_here next (seen gone) loose.now) }
{
    let gone = past(gone, 2 + loose.name.bytes().len())?;
    let gone = number(next, gone, loose.file)?;
    Ok(gone)
}

fn loose_files(next: u64, gone: Cursor, files: &[Loose]) -> Result<Cursor, FieldError>
    ensures { Goes result (walk (loose_here next) (seen gone) files.now) }
{
    let mut gone = gone;
    'files: for file in files {
        gone = loose_file(next, gone, file)?;
    }
    Ok(gone)
}

fn is_pool(all: &[RepoFiles], path: &RepoPath) -> bool
    ensures { result ≡ list_any (λ r. r.is_pool && bytes_eq r.path path.now) all.now }
{
    all.iter()
        .any(|repo| repo.is_pool && repo.path.bytes() == path.bytes())
}

/// The pool, if there is one.
fn pool(all: &[RepoFiles], gone: Cursor, repo: &RepoFiles) -> Result<Cursor, FieldError>
    ensures goes { Goes result (pool_here all.now (seen gone) repo.now) }
    ensures memory { MemoryAfter result (pool_here all.now (seen gone) repo.now) }
{
    match &repo.pool {
        None => past(gone, 2),
        Some(path) => {
            if repo.is_pool {
                return Err(FieldError::BadField { at: gone.at });
            }
            if !is_pool(all, path) {
                return Err(FieldError::BadField { at: gone.at });
            }
            past(gone, 2 + path.bytes().len())
        }
    }
}

fn lasts_size(version: Version) -> usize
    ensures { result ≡ lasts_size version }
{
    match version {
        Version::First => 0,
        Version::Second => 16,
    }
}

#[tactic(auto, unfolding(crate::specs::Whole::repo_here))]
fn repo_files(
    all: &[RepoFiles],
    version: Version,
    next: u64,
    gone: Cursor,
    repo: &RepoFiles,
) -> Result<Cursor, FieldError>
    ensures { Goes result (repo_here all.now version next (seen gone) repo.now) }
{
    let gone = past(gone, 3 + repo.path.bytes().len())?;
    let gone = pool(all, gone, repo)?;
    let gone = past(gone, 4)?;
    let gone = packs(next, gone, repo.packs.as_slice())?;
    let gone = packed(next, gone, repo.packed)?;
    let gone = past(gone, 4)?;
    let gone = loose_files(next, gone, repo.loose.as_slice())?;
    let gone = past(gone, lasts_size(version))?;
    Ok(gone)
}

/// Goes through all fields that the whole list decides.
pub(crate) fn whole(
    alloc: Global,
    version: Version,
    manifest: &Manifest,
) -> Result<Cursor, FieldError>
    ensures goes { Goes result (whole version manifest.now) }
    ensures some { OnErr result (1 ≤ length manifest.now.repos) }
{
    let all = manifest.repos.as_slice();
    let mut gone = Cursor {
        numbers: BTreeSet::new(alloc),
        at: 32,
    };
    'repos: for repo in all {
        gone = repo_files(all, version, manifest.next, gone, repo)?;
    }
    Ok(gone)
}
