ghost use Rattle.std.specs.Prelude.{◌≡◌, ◌≤◌, length};
ghost use Rattle.gt_bytes.specs.Answers.{Gives, Within, MemoryAfter, Reads, EndsWithin};
ghost use Rattle.gt_entry.specs.Reading.{path_at, ref_at, flag_at, version_at};

use crate::Version;
use gt_bytes::{FieldError, Short, get_text, get_u8};
use gt_name::{NameError, RefName, RepoPath};
use std::alloc::Global;

/// A path.
#[tactic(auto, unfolding(crate::specs::Reading::path_at))]
pub(crate) fn read_path(
    alloc: Global,
    bytes: &[u8],
    at: usize,
) -> Result<(RepoPath, usize), FieldError>
    requires { at ≤ length bytes.now }
    ensures within { Within result (length bytes.now) }
    ensures value { Gives result (path_at bytes.now at) }
    ensures memory { MemoryAfter result (path_at bytes.now at) }
{
    let ((begin, end), next) = get_text(bytes, at)?;
    match RepoPath::parse(alloc, &bytes[begin..end]) {
        Ok(path) => Ok((path, next)),
        Err(NameError::Memory) => Err(FieldError::Memory),
        Err(_) => Err(FieldError::BadField { at }),
    }
}

/// A reference's name.
#[tactic(auto, unfolding(crate::specs::Reading::ref_at))]
pub(crate) fn read_ref(
    alloc: Global,
    bytes: &[u8],
    at: usize,
) -> Result<(RefName, usize), FieldError>
    requires { at ≤ length bytes.now }
    ensures within { Within result (length bytes.now) }
    ensures value { Gives result (ref_at bytes.now at) }
    ensures memory { MemoryAfter result (ref_at bytes.now at) }
{
    let ((begin, end), next) = get_text(bytes, at)?;
    match RefName::parse(alloc, &bytes[begin..end]) {
        Ok(name) => Ok((name, next)),
        Err(NameError::Memory) => Err(FieldError::Memory),
        Err(_) => Err(FieldError::BadField { at }),
    }
}

/// A byte that is 0 or 1.
#[tactic(auto, unfolding(crate::specs::Reading::flag_at))]
pub(crate) fn read_flag(bytes: &[u8], at: usize) -> Result<(bool, usize), Short>
    requires { at ≤ length bytes.now }
    ensures within { EndsWithin result (length bytes.now) }
    ensures value { Reads result (flag_at bytes.now at) }
{
    let (byte, next) = get_u8(bytes, at)?;
    match byte {
        0 => Ok((false, next)),
        1 => Ok((true, next)),
        _ => Err(Short { at }),
    }
}

/// What the file begins with.
#[tactic(auto, unfolding(crate::specs::Reading::version_at))]
pub(crate) fn read_version(bytes: &[u8], at: usize) -> Result<(Version, usize), Short>
    requires { at ≤ length bytes.now }
    ensures within { EndsWithin result (length bytes.now) }
    ensures value { Reads result (version_at bytes.now at) }
{
    let (_, rest) = bytes.split_at(at);
    if rest.len() < 4 {
        return Err(Short { at });
    }
    if rest.starts_with(b"GTE1") {
        return Ok((Version::First, at + 4));
    }
    if rest.starts_with(b"GTE2") {
        return Ok((Version::Second, at + 4));
    }
    Err(Short { at })
}
