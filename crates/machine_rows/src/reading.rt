//! Words of a row that the rows of other drivers haven't.
use gt_list::ListOf;
use gt_model::{Added, Job, Word};
use row_words::{number, record_of};
use std::alloc::Global;

pub(crate) fn pin_of(word: &str) -> Option<u8> {
    u8::try_from(number(word)?).ok()
}

pub(crate) fn count_of(word: &str) -> Option<u32> {
    u32::try_from(number(word)?).ok()
}

pub(crate) fn word_of(alloc: Global, word: &str) -> Option<Word> {
    let bytes = Vec::from_slice(alloc, word.as_bytes()).ok()?;
    Some(ListOf::from_vec(bytes))
}

pub(crate) fn job_of(word: &str) -> Option<Job> {
    match word {
        "repack" => Some(Job::Repack),
        "prune" => Some(Job::Prune),
        "refs" => Some(Job::PackRefs),
        "unlink" => Some(Job::Unlink),
        _ => None,
    }
}

/// `KIND CONTENT`.
pub(crate) fn added_of(alloc: Global, words: &str) -> Option<Added> {
    let whole = record_of(alloc, words)?;
    Some(Added {
        name: whole.name(),
        whole,
    })
}
