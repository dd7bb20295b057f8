ghost use Rattle.std.specs.Prelude.{◌≡◌, ◌≤◌, ◌++◌, ℕ, List, length, IfOk, IsOk, Ok};
ghost use Rattle.gt_bytes.specs.Answers.{Gives, Within, MemoryAfter, Reads, EndsWithin};
ghost use Rattle.gt_bytes.specs.Reading.{kept, counted_at};
ghost use Rattle.gt_manifest.specs.Spelling.{above, path_of};
ghost use Rattle.gt_manifest.specs.Reading.{path_at, owner_at, files_at, repo_at, head_at, next_at, top_at, fields_of, first_path, front_at};

use crate::fields::{read_flag, read_lasts, read_path, read_pool, read_version};
use crate::items::{FileNumbers, LooseRefs};
use crate::manifest::{LooseList, Manifest, Numbers, RepoFiles, RepoList};
use crate::version::Version;
use gt_bytes::{FieldError, Short, get_u32, get_u64, read_list};
use gt_list::ListOf;
use gt_name::RepoPath;
use std::alloc::Global;
use std::cmp::Ordering;

fn path_above(before: &[RepoFiles], path: &RepoPath) -> bool
    ensures { result ≡ above path_of before.now path.now }
{
    match before.last() {
        None => true,
        Some(last) => matches!(last.path.cmp(path), Ordering::Less),
    }
}

fn read_next_path(
    alloc: Global,
    bytes: &[u8],
    before: &[RepoFiles],
    at: usize,
) -> Result<(RepoPath, usize), FieldError>
    requires { at ≤ length bytes.now }
    ensures within { Within result (length bytes.now) }
    ensures value { Gives result (kept (above path_of before.now) at (path_at bytes.now at)) }
    ensures memory { MemoryAfter result (path_at bytes.now at) }
{
    let (path, next) = read_path(alloc, bytes, at)?;
    if !path_above(before, &path) {
        return Err(FieldError::BadField { at });
    }
    Ok((path, next))
}

/// A repository's path, whether it is a pool, and its pool.
#[tactic(auto, unfolding(crate::specs::Reading::owner_at), using(crate::proofs::FirstLemmas::path_of_kept))]
fn read_owner(
    alloc: Global,
    bytes: &[u8],
    before: &[RepoFiles],
    at: usize,
) -> Result<((RepoPath, (bool, Option<RepoPath>)), usize), FieldError>
    requires { at ≤ length bytes.now }
    ensures within { Within result (length bytes.now) }
    ensures value { Gives result (owner_at bytes.now before.now at) }
    ensures memory { MemoryAfter result (path_at bytes.now at) }
{
    let (path, after) = read_next_path(alloc, bytes, before, at)?;
    let (is_pool, begin) = read_flag(bytes, after)?;
    let (pool, next) = read_pool(alloc, bytes, begin)?;
    Ok(((path, (is_pool, pool)), next))
}

/// A repository's packs, packed file and loose files.
#[tactic(auto, unfolding(crate::specs::Reading::files_at))]
fn read_files(
    alloc: Global,
    bytes: &[u8],
    at: usize,
) -> Result<((Numbers, (u64, LooseList)), usize), FieldError>
    requires { at ≤ length bytes.now }
    ensures within { Within result (length bytes.now) }
    ensures value { Gives result (files_at bytes.now at) }
{
    let (packs, after) = read_list::<FileNumbers>(alloc, bytes, at)?;
    let (packed, begin) = get_u64(bytes, after)?;
    let (loose, next) = read_list::<LooseRefs>(alloc, bytes, begin)?;
    Ok(((packs, (packed, loose)), next))
}

/// A repository.
#[tactic(auto, unfolding(crate::specs::Reading::repo_at), using(crate::proofs::FirstLemmas::path_of_owner))]
fn read_repo(
    alloc: Global,
    version: Version,
    applied: u64,
    bytes: &[u8],
    before: &[RepoFiles],
    at: usize,
) -> Result<(RepoFiles, usize), FieldError>
    requires { at ≤ length bytes.now }
    ensures within { Within result (length bytes.now) }
    ensures value { Gives result (repo_at version applied bytes.now before.now at) }
    ensures memory { MemoryAfter result (path_at bytes.now at) }
{
    let ((path, (is_pool, pool)), after) = read_owner(alloc, bytes, before, at)?;
    let ((packs, (packed, loose)), begin) = read_files(alloc, bytes, after)?;
    let ((repacked, refs_packed), next) = read_lasts(version, applied, bytes, begin)?;
    Ok((
        RepoFiles {
            path,
            is_pool,
            pool,
            packs,
            packed,
            loose,
            repacked,
            refs_packed,
        },
        next,
    ))
}

/// All repositories.
fn read_repos(
    alloc: Global,
    version: Version,
    applied: u64,
    bytes: &[u8],
    from: usize,
) -> Result<(RepoList, usize), FieldError>
    requires { from ≤ length bytes.now }
    ensures within { Within result (length bytes.now) }
    ensures value { Gives result (counted_at (repo_at version applied bytes.now) bytes.now from) }
    ensures some { IfOk result (λ x. 1 ≤ length x.0 → IsOk (first_path bytes.now from)) }
    ensures memory { MemoryAfter result (first_path bytes.now from) }
{
    let (count, begin) = get_u32(bytes, from)?;
    let mut items = ListOf::new(alloc);
    let mut at = begin;
    'items: for _ in 0..count {
        let (item, next) = read_repo(alloc, version, applied, bytes, items.as_slice(), at)?;
        items.push(item)?;
        at = next;
    }
    Ok((items, at))
}

/// A number that is at least 1.
#[tactic(auto, unfolding(crate::specs::Reading::next_at))]
fn read_next(bytes: &[u8], at: usize) -> Result<(u64, usize), Short>
    requires { at ≤ length bytes.now }
    ensures within { EndsWithin result (length bytes.now) }
    ensures value { Reads result (next_at bytes.now at) }
{
    let (next, after) = get_u64(bytes, at)?;
    if next == 0 {
        return Err(Short { at });
    }
    Ok((next, after))
}

/// The epoch, the applied position and the next file number.
#[tactic(auto, unfolding(crate::specs::Reading::head_at))]
fn read_head(bytes: &[u8], at: usize) -> Result<((u64, (u64, u64)), usize), Short>
    requires { at ≤ length bytes.now }
    ensures within { EndsWithin result (length bytes.now) }
    ensures value { Reads result (head_at bytes.now at) }
{
    let (epoch, after) = get_u64(bytes, at)?;
    let (applied, begin) = get_u64(bytes, after)?;
    let (next, end) = read_next(bytes, begin)?;
    Ok(((epoch, (applied, next)), end))
}

/// All fields.
#[tactic(auto, unfolding(crate::specs::Reading::top_at))]
fn read_top(
    alloc: Global,
    bytes: &[u8],
    at: usize,
) -> Result<((Version, Manifest), usize), FieldError>
    requires { at ≤ length bytes.now }
    ensures within { Within result (length bytes.now) }
    ensures value { Gives result (top_at bytes.now at) }
    ensures some { IfOk result (λ x. 1 ≤ length x.0.1.repos → IsOk (front_at bytes.now at)) }
    ensures memory { MemoryAfter result (front_at bytes.now at) }
{
    let (version, after) = read_version(bytes, at)?;
    let ((epoch, (applied, next)), begin) = read_head(bytes, after)?;
    let (repos, end) = read_repos(alloc, version, applied, bytes, begin)?;
    Ok((
        (
            version,
            Manifest {
                epoch,
                applied,
                next,
                repos,
            },
        ),
        end,
    ))
}

/// All fields, with no byte behind them.
#[tactic(auto, unfolding(crate::specs::Reading::fields_of))]
pub(crate) fn read_fields(alloc: Global, bytes: &[u8]) -> Result<(Version, Manifest), FieldError>
    ensures value { Gives result (fields_of bytes.now) }
    ensures some { IfOk result (λ x. 1 ≤ length x.1.repos → IsOk (front_at bytes.now 0)) }
    ensures memory { MemoryAfter result (front_at bytes.now 0) }
{
    let (found, end) = read_top(alloc, bytes, 0)?;
    if end != bytes.len() {
        return Err(FieldError::BadField { at: end });
    }
    Ok(found)
}
