use gt_name::RepoPath;
use row_words::{number, path_of};
use std::alloc::Global;

/// What most rows have behind their first words: `POSITION PATH`, and further words.
#[derive(Drop)]
pub(crate) struct Asked<'a> {
    pub(crate) at: u64,
    pub(crate) path: RepoPath,
    pub(crate) word: &'a str,
}

pub(crate) fn asked_of(alloc: Global, words: &str) -> Option<Asked<'_>> {
    let (at, words) = words.split_once(' ')?;
    let (path, word) = words.split_once(' ').unwrap_or((words, ""));
    Some(Asked {
        at: number(at)?,
        path: path_of(alloc, path)?,
        word,
    })
}
