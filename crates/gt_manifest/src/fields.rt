ghost use Rattle.std.specs.Prelude.{◌≡◌, ◌≤◌, length};
ghost use Rattle.gt_bytes.specs.Answers.{Gives, Within, MemoryAfter, Reads, EndsWithin};
ghost use Rattle.gt_bytes.specs.Reading.{kept, number_at};
ghost use Rattle.std.specs.Int.{w64};
ghost use Rattle.gt_manifest.specs.Reading.{path_at, ref_at, flag_at, pool_at, position_at, lasts_at, version_at};

use crate::version::Version;
use gt_bytes::{FieldError, Short, get_text, get_u8, get_u64};
use gt_name::{NameError, RefName, RepoPath};
use std::alloc::Global;

/// A path.
#[tactic(auto, unfolding(crate::specs::Reading::path_at))]
pub(crate) fn read_path(
    alloc: Global,
    bytes: &[u8],
    at: usize,
) -> Result<(RepoPath, usize), FieldError>
    requires { at ≤ length bytes.now }
    ensures within { Within result (length bytes.now) }
    ensures value { Gives result (path_at bytes.now at) }
    ensures memory { MemoryAfter result (path_at bytes.now at) }
{
    let ((begin, end), next) = get_text(bytes, at)?;
    match RepoPath::parse(alloc, &bytes[begin..end]) {
        Ok(path) => Ok((path, next)),
        Err(NameError::Memory) => Err(FieldError::Memory),
        Err(_) => Err(FieldError::BadField { at }),
    }
}

/// A reference's name.
#[tactic(auto, unfolding(crate::specs::Reading::ref_at))]
pub(crate) fn read_ref(
    alloc: Global,
    bytes: &[u8],
    at: usize,
) -> Result<(RefName, usize), FieldError>
    requires { at ≤ length bytes.now }
    ensures within { Within result (length bytes.now) }
    ensures value { Gives result (ref_at bytes.now at) }
    ensures memory { MemoryAfter result (ref_at bytes.now at) }
{
    let ((begin, end), next) = get_text(bytes, at)?;
    match RefName::parse(alloc, &bytes[begin..end]) {
        Ok(name) => Ok((name, next)),
        Err(NameError::Memory) => Err(FieldError::Memory),
        Err(_) => Err(FieldError::BadField { at }),
    }
}

/// A byte that is 0 or 1.
#[tactic(auto, unfolding(crate::specs::Reading::flag_at))]
pub(crate) fn read_flag(bytes: &[u8], at: usize) -> Result<(bool, usize), Short>
    requires { at ≤ length bytes.now }
    ensures within { EndsWithin result (length bytes.now) }
    ensures value { Reads result (flag_at bytes.now at) }
{
    let (byte, next) = get_u8(bytes, at)?;
    match byte {
        0 => Ok((false, next)),
        1 => Ok((true, next)),
        _ => Err(Short { at }),
    }
}

/// A path, or an empty text for none.
#[tactic(auto, unfolding(crate::specs::Reading::pool_at))]
pub(crate) fn read_pool(
    alloc: Global,
    bytes: &[u8],
    at: usize,
) -> Result<(Option<RepoPath>, usize), FieldError>
    requires { at ≤ length bytes.now }
    ensures within { Within result (length bytes.now) }
    ensures value { Gives result (pool_at bytes.now at) }
    ensures memory { MemoryAfter result (pool_at bytes.now at) }
{
    let ((begin, end), next) = get_text(bytes, at)?;
    if begin == end {
        return Ok((None, next));
    }
    match RepoPath::parse(alloc, &bytes[begin..end]) {
        Ok(path) => Ok((Some(path), next)),
        Err(NameError::Memory) => Err(FieldError::Memory),
        Err(_) => Err(FieldError::BadField { at }),
    }
}

/// A position that is at most the applied one.
#[tactic(auto, unfolding(crate::specs::Reading::position_at))]
pub(crate) fn read_position(applied: u64, bytes: &[u8], at: usize) -> Result<(u64, usize), Short>
    requires { at ≤ length bytes.now }
    ensures within { EndsWithin result (length bytes.now) }
    ensures value { Reads result (position_at applied bytes.now at) }
{
    let (position, next) = get_u64(bytes, at)?;
    if position > applied {
        return Err(Short { at });
    }
    Ok((position, next))
}

/// The two positions of the last packings.
#[tactic(auto, unfolding(crate::specs::Reading::lasts_at))]
pub(crate) fn read_lasts(
    version: Version,
    applied: u64,
    bytes: &[u8],
    at: usize,
) -> Result<((u64, u64), usize), Short>
    requires { at ≤ length bytes.now }
    ensures within { EndsWithin result (length bytes.now) }
    ensures value { Reads result (lasts_at version applied bytes.now at) }
{
    match version {
        Version::First => Ok(((0, 0), at)),
        Version::Second => {
            let (repacked, after) = read_position(applied, bytes, at)?;
            let (refs_packed, next) = read_position(applied, bytes, after)?;
            Ok(((repacked, refs_packed), next))
        }
    }
}

/// What the file begins with.
#[tactic(auto, unfolding(crate::specs::Reading::version_at))]
pub(crate) fn read_version(bytes: &[u8], at: usize) -> Result<(Version, usize), Short>
    requires { at ≤ length bytes.now }
    ensures within { EndsWithin result (length bytes.now) }
    ensures value { Reads result (version_at bytes.now at) }
{
    let (_, rest) = bytes.split_at(at);
    if rest.len() < 4 {
        return Err(Short { at });
    }
    if rest.starts_with(b"GTM1") {
        return Ok((Version::First, at + 4));
    }
    if rest.starts_with(b"GTM2") {
        return Ok((Version::Second, at + 4));
    }
    Err(Short { at })
}
