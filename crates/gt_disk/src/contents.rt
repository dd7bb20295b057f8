// The bytes of files, by name.
ghost use Rattle.std.specs.Prelude.{◌≡◌, ◌≤◌, ◌+◌, ◌-◌, ◌++◌, ◌<◌, ℕ, false, true, length, min, take, drop, Some, None, IfOk, OnOk, OnErr, MatchOption};
ghost use Rattle.std.specs.BTreeMap.{btree_map_len};
ghost use Rattle.gt_disk.specs.declared.file_id.FileId.{FileId};
ghost use Rattle.gt_disk.specs.Files.{appended, IsNext};
ghost use Rattle.gt_disk.specs.Calls.{content_of};
ghost use Rattle.gt_disk.specs.Contents.{Puts};

use crate::FileId;
use std::alloc::{AllocError, Global};
use std::collections::BTreeMap;
use std::ops::Bound;

/// Puts a piece behind what a file has, in place, and makes the file where it is absent.
pub fn extend_file(
    alloc: Global,
    files: &mut BTreeMap<FileId, Vec<u8>>,
    file: FileId,
    piece: &[u8],
) -> Result<(), AllocError>
    ensures ok { OnOk result (Puts files.old files.new file (appended (content_of files.old file) piece.now)) }
    ensures len { btree_map_len files.new ≤ btree_map_len files.old + 1 }
    ensures err { OnErr result ((f : FileId) → content_of files.new f ≡ content_of files.old f) }
    ensures err_len { OnErr result (btree_map_len files.new ≡ btree_map_len files.old) }
{
    if let Some(content) = files.get_mut(&file) {
        content.extend_from_slice(piece)?;
        return Ok(());
    }
    match files.insert(file, piece.to_vec(alloc)?) {
        Ok(_) => Ok(()),
        Err(_) => Err(AllocError),
    }
}

/// The same files with the same bytes.
pub fn copy_files(
    files: &BTreeMap<FileId, Vec<u8>>,
) -> Result<BTreeMap<FileId, Vec<u8>>, AllocError>
    ensures { IfOk result (λ copy. (f : FileId) → content_of copy f ≡ content_of files.now f) }
{
    let copy = files.clone()?;
    Ok(copy)
}

/// The least file after this one.
pub fn next_file(files: &BTreeMap<FileId, Vec<u8>>, after: Option<FileId>) -> Option<FileId>
    ensures { IsNext (content_of files.now) after result }
{
    match after {
        Some(file) => {
            let mut rest = files.range((Bound::Excluded(file), Bound::Unbounded));
            match rest.next() {
                Some((next, _)) => Some(*next),
                None => None,
            }
        }
        None => match files.first_key_value() {
            Some((next, _)) => Some(*next),
            None => None,
        },
    }
}

/// Fills the front of a buffer with what stands from a place on.
pub fn copy_from(bytes: &[u8], at: u64, into: &mut [u8]) -> usize
    ensures count { result ≡ min (length into.old) (length bytes.now - at) }
    ensures bytes { into.new ≡ take result (drop at bytes.now) ++ drop result into.old }
{
    let start = (bytes.len() as u64).min(at) as usize;
    let rest = &bytes[start..];
    let count = rest.len().min(into.len());
    into[..count].copy_from_slice(&rest[..count]);
    count
}

/// The first bytes of a piece, as many as a fault keeps.
pub fn front(piece: &[u8], kept: u64) -> usize
    ensures { result ≡ min (length piece.now) kept }
{
    (piece.len() as u64).min(kept) as usize
}
