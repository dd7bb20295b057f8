//! The files of a store's disk, by kind and number.
ghost use Rattle.std.specs.Prelude.{◌≡◌};
ghost use Rattle.gt_disk.specs.Kinds as kinds;

use crate::FileId;

/// The gate: its length counts the entries that are in, and its bytes don't matter.
pub const GATE: FileId = FileId { kind: 1, number: 0 };

/// The turn: its length is the epoch, and its bytes don't matter.
pub const TURN: FileId = FileId { kind: 2, number: 0 };

const MANIFEST: u8 = 3;

const ENTRY: u8 = 4;

const PACK: u8 = 5;

const PACKED: u8 = 6;

const LOOSE: u8 = 7;

/// The manifest of an epoch.
pub fn manifest_file(epoch: u64) -> FileId
    ensures { result ≡ kinds.manifest_file epoch }
{
    FileId {
        kind: MANIFEST,
        number: epoch,
    }
}

/// The entry of a position.
pub fn entry_file(number: u64) -> FileId
    ensures { result ≡ kinds.entry_file number }
{
    FileId {
        kind: ENTRY,
        number,
    }
}

/// A pack. Its number and those of the two kinds that follow are of one sequence.
pub fn pack_file(number: u64) -> FileId
    ensures { result ≡ kinds.pack_file number }
{
    FileId { kind: PACK, number }
}

/// Packed references.
pub fn packed_file(number: u64) -> FileId
    ensures { result ≡ kinds.packed_file number }
{
    FileId {
        kind: PACKED,
        number,
    }
}

/// One loose reference.
pub fn loose_file(number: u64) -> FileId
    ensures { result ≡ kinds.loose_file number }
{
    FileId {
        kind: LOOSE,
        number,
    }
}
