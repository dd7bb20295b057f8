// Where the records of an entry stand in its file.
ghost use Rattle.std.specs.Prelude.{◌≡◌, ◌+◌, IfSome, is_none, length, sum_by};
ghost use Rattle.std.specs.List.{list_any};
ghost use Rattle.gt_objset.specs.Places.{ref_bytes, added_begin};

use crate::Place;
use gt_disk::FileId;
use gt_model::RefUpdate;
use gt_name::{Name, RepoPath, law_paths, law_references};
use gt_object::Record;

/// The kind of file that an entry is.
const ENTRY: u8 = 4;

/// Where the first added record's item begins in the file of an entry. None where that is past every file's end.
pub fn added_begin(path: &RepoPath, refs: &[RefUpdate], needed: &[Name]) -> Option<u64>
    ensures { IfSome result (λ begin. begin ≡ added_begin path.now refs.now needed.now) }
{
    let Some(refs) = refs_bytes(has_check(refs), refs) else {
        return None;
    };
    let Some(needed) = (needed.len() as u64).checked_mul(20) else {
        return None;
    };
    let Some(front) = (path.bytes().len() as u64).checked_add(27) else {
        return None;
    };
    let Some(behind) = front.checked_add(refs) else {
        return None;
    };
    behind.checked_add(needed)
}

/// The place of a record whose item begins here, and where the next item begins.
pub fn place_of(number: u64, begin: u64, whole: &Record) -> Option<(Place, u64)>
    ensures { IfSome result (λ r. (r.0 ≡ record { file = record { kind = 4; number = number }; at = begin + 24; len = length whole.now }) × (r.1 ≡ begin + 24 + length whole.now)) }
{
    let Some(at) = begin.checked_add(24) else {
        return None;
    };
    let Ok(len) = u32::try_from(whole.bytes().len()) else {
        return None;
    };
    let Some(end) = at.checked_add(u64::from(len)) else {
        return None;
    };
    let file = FileId {
        kind: ENTRY,
        number,
    };
    Some((Place { file, at, len }, end))
}

fn has_check(refs: &[RefUpdate]) -> bool
    ensures { result ≡ list_any (λ u. is_none u.new) refs.now }
{
    refs.iter().any(|update| update.new.is_none())
}

fn refs_bytes(checks: bool, refs: &[RefUpdate]) -> Option<u64>
    ensures { IfSome result (λ n. n ≡ sum_by (ref_bytes checks) refs.now) }
{
    let mut sum: u64 = 0;
    for update in refs {
        let Some(next) = sum.checked_add(ref_bytes(checks, update)) else {
            return None;
        };
        sum = next;
    }
    Some(sum)
}

fn ref_bytes(checks: bool, update: &RefUpdate) -> u64
    ensures { result ≡ ref_bytes checks update.now }
{
    law_references();
    let name = update.name.bytes().len() as u64;
    let tag = if checks { 1 } else { 0 };
    let new = if update.new.is_none() { 0 } else { 20 };
    2 + name + 20 + tag + new
}
