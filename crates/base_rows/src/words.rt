//! What the words of a row stand for. A word that is none stands for the greatest number.
ghost use Rattle.std.specs.Prelude.{◌≡◌};

use gt_disk::FileId;
use gt_model::Limits;
use std::alloc::Global;

pub(crate) fn number(word: &str) -> u64 {
    word.parse::<u64>().unwrap_or(u64::MAX)
}

/// A file, as `4 1`.
pub(crate) fn file_of(words: &str) -> FileId {
    let (kind, at) = words.split_once(' ').unwrap_or((words, ""));
    FileId {
        kind: kind.parse::<u8>().unwrap_or(u8::MAX),
        number: number(at),
    }
}

/// The bytes of hex digits; `-` is none.
pub(crate) fn bytes_of(alloc: Global, word: &str) -> Option<Vec<u8>> {
    hex::decode(alloc, word.trim_start_matches('-')).ok()
}

/// The usual limits but for these two.
pub(crate) fn limits_of(positions: u64, epochs: u64) -> Limits
    ensures positions { result.positions ≡ positions }
    ensures epochs { result.epochs ≡ epochs }
{
    let mut limits = Limits::usual();
    limits.positions = positions;
    limits.epochs = epochs;
    limits
}
