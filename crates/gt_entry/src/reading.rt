ghost use Rattle.std.specs.Prelude.{◌≡◌, ◌≤◌, length};
ghost use Rattle.std.specs.Int.{w64};
ghost use Rattle.gt_bytes.specs.Answers.{Gives, Within, MemoryAfter};
ghost use Rattle.gt_bytes.specs.Reading.{all_of, pair_at, number_at};
ghost use Rattle.gt_entry.specs.declared.version.Version.TheVariants.{First};
ghost use Rattle.gt_entry.specs.Reading.{path_at, write_at, packing_at, change_by, change_at, body_at, top_at, front_at};

use crate::Version;
use crate::fields::{read_flag, read_path, read_version};
use crate::names::AscendingNames;
use crate::records::read_records;
use crate::refs::read_refs;
use gt_bytes::{FieldError, get_u8, get_u64, read_list};
use gt_model::{Change, Entry};
use gt_name::Names;
use std::alloc::Global;

#[tactic(auto, unfolding(crate::specs::Reading::write_at))]
fn read_write(
    alloc: Global,
    version: Version,
    bytes: &[u8],
    at: usize,
) -> Result<(Change, usize), FieldError>
    requires { at ≤ length bytes.now }
    ensures within { Within result (length bytes.now) }
    ensures value { Gives result (write_at version bytes.now at) }
{
    let (refs, after) = read_refs(alloc, version, bytes, at)?;
    let (needed, begin) = read_list::<AscendingNames>(alloc, bytes, after)?;
    let (added, next) = read_records(alloc, bytes, begin)?;
    Ok((
        Change::Write {
            refs,
            needed,
            added,
        },
        next,
    ))
}

/// A file number, and the names that are dropped.
#[tactic(auto, unfolding(crate::specs::Reading::packing_at))]
fn read_packing(alloc: Global, bytes: &[u8], at: usize) -> Result<((u64, Names), usize), FieldError>
    requires { at ≤ length bytes.now }
    ensures within { Within result (length bytes.now) }
    ensures value { Gives result (packing_at bytes.now at) }
{
    let (file, begin) = get_u64(bytes, at)?;
    let (dropped, next) = read_list::<AscendingNames>(alloc, bytes, begin)?;
    Ok(((file, dropped), next))
}

/// The fields of a kind of change. The kind stands at `at`, its fields begin at `begin`.
fn read_fields(
    alloc: Global,
    bytes: &[u8],
    at: usize,
    kind: u8,
    begin: usize,
) -> Result<(Change, usize), FieldError>
    requires { begin ≤ length bytes.now }
    ensures within { Within result (length bytes.now) }
    ensures value { Gives result (change_by First bytes.now at kind begin) }
{
    match kind {
        1 => {
            let (pool, next) = read_flag(bytes, begin)?;
            Ok((Change::Create { pool }, next))
        }
        2 => Ok((Change::Delete, begin)),
        3 => {
            let (pool, next) = read_path(alloc, bytes, begin)?;
            Ok((Change::Link { pool }, next))
        }
        4 => read_write(alloc, Version::First, bytes, begin),
        5 => {
            let ((file, dropped), next) = read_packing(alloc, bytes, begin)?;
            Ok((Change::Repack { file, dropped }, next))
        }
        6 => {
            let ((file, dropped), next) = read_packing(alloc, bytes, begin)?;
            Ok((Change::Prune { file, dropped }, next))
        }
        7 => {
            let (file, next) = get_u64(bytes, begin)?;
            Ok((Change::PackRefs { file }, next))
        }
        8 => {
            let (file, next) = get_u64(bytes, begin)?;
            Ok((Change::Unlink { file }, next))
        }
        _ => Err(FieldError::BadField { at }),
    }
}

#[tactic(auto, unfolding(crate::specs::Reading::change_at))]
fn read_change(
    alloc: Global,
    version: Version,
    bytes: &[u8],
    at: usize,
) -> Result<(Change, usize), FieldError>
    requires { at ≤ length bytes.now }
    ensures within { Within result (length bytes.now) }
    ensures value { Gives result (change_at version bytes.now at) }
{
    let (kind, begin) = get_u8(bytes, at)?;
    match version {
        Version::First => read_fields(alloc, bytes, at, kind, begin),
        Version::Second => {
            if kind != 4 {
                return Err(FieldError::BadField { at });
            }
            read_write(alloc, version, bytes, begin)
        }
    }
}

/// All fields behind the magic.
#[tactic(auto, unfolding(crate::specs::Reading::body_at))]
fn read_body(
    alloc: Global,
    version: Version,
    bytes: &[u8],
    at: usize,
) -> Result<(Entry, usize), FieldError>
    requires { at ≤ length bytes.now }
    ensures within { Within result (length bytes.now) }
    ensures value { Gives result (body_at version bytes.now at) }
    ensures memory { MemoryAfter result (pair_at (number_at w64 bytes.now) (path_at bytes.now) at) }
{
    let (position, after) = get_u64(bytes, at)?;
    let (path, begin) = read_path(alloc, bytes, after)?;
    let (change, next) = read_change(alloc, version, bytes, begin)?;
    Ok((
        Entry {
            position,
            path,
            change,
        },
        next,
    ))
}

/// All fields.
#[tactic(auto, unfolding(crate::specs::Reading::top_at))]
fn read_top(alloc: Global, bytes: &[u8], at: usize) -> Result<((Version, Entry), usize), FieldError>
    requires { at ≤ length bytes.now }
    ensures within { Within result (length bytes.now) }
    ensures value { Gives result (top_at bytes.now at) }
    ensures memory { MemoryAfter result (front_at bytes.now at) }
{
    let (version, begin) = read_version(bytes, at)?;
    let (entry, next) = read_body(alloc, version, bytes, begin)?;
    Ok(((version, entry), next))
}

/// All fields, with no byte behind them.
pub(crate) fn read_all(alloc: Global, bytes: &[u8]) -> Result<(Version, Entry), FieldError>
    ensures value { Gives result (all_of (top_at bytes.now) bytes.now) }
    ensures memory { MemoryAfter result (front_at bytes.now 0) }
{
    let (found, end) = read_top(alloc, bytes, 0)?;
    if end != bytes.len() {
        return Err(FieldError::BadField { at: end });
    }
    Ok(found)
}
