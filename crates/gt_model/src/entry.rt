use crate::Change;
use gt_list::ListOf;
use gt_name::RepoPath;

/// One entry of a partition's log.
#[derive(Clone, Drop)]
pub struct Entry {
    /// Its place in the log, from 1.
    pub position: u64,
    /// The repository that it changes.
    pub path: RepoPath,
    pub change: Change,
}

pub type EntryList = ListOf<Entry>;
