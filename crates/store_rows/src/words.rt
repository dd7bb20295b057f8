//! What the words of a row stand for. A word that is none stands for the greatest number.
use gt_disk::{Fault, FileId, Stop};
use std::alloc::Global;

pub(crate) fn number(word: &str) -> u64 {
    word.parse::<u64>().unwrap_or(u64::MAX)
}

/// The numbers of words that this character parts.
pub(crate) fn numbers(alloc: Global, words: &str, between: char) -> Option<Vec<u64>> {
    let mut list = Vec::new(alloc);
    for word in words.split(between) {
        list.push(number(word)).ok()?;
    }
    Some(list)
}

/// A file, as `4-1`.
pub(crate) fn file_of(word: &str) -> FileId {
    let (kind, at) = word.split_once('-').unwrap_or((word, ""));
    FileId {
        kind: kind.parse::<u8>().unwrap_or(u8::MAX),
        number: number(at),
    }
}

/// A fault, as `14:1`: the call, and how many bytes are kept.
fn fault_of(word: &str) -> Fault {
    let (call, kept) = word.split_once(':').unwrap_or((word, ""));
    Fault {
        call: number(call),
        kept: number(kept),
    }
}

pub(crate) fn faults_of(alloc: Global, words: &str) -> Option<Vec<Fault>> {
    let mut list = Vec::new(alloc);
    for word in words.split(' ') {
        list.push(fault_of(word)).ok()?;
    }
    Some(list)
}

pub(crate) fn choice_of(word: &str) -> Stop {
    match word {
        "most" => Stop::Most,
        "junk" => Stop::Junk,
        _ => Stop::Least,
    }
}

/// The bytes of hex digits; `-` is none.
pub(crate) fn bytes_of(alloc: Global, word: &str) -> Option<Vec<u8>> {
    if word == "-" {
        return Some(Vec::new(alloc));
    }
    hex::decode(alloc, word).ok()
}
