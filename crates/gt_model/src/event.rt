use crate::{AddedRecords, Job, RefUpdates, Word};
use gt_name::{Name, RefName, RepoPath};

/// What is asked of a partition. A transaction or a job is named by the number of its pin.
#[derive(Clone, Drop)]
pub enum Event {
    /// Make a repository, or a pool.
    Create {
        path: RepoPath,
        pool: bool,
    },
    /// Delete a repository.
    Delete {
        path: RepoPath,
    },
    /// Make a repository a member of a pool.
    Link {
        path: RepoPath,
        pool: RepoPath,
    },
    /// Begin a transaction, by one who has seen a position.
    Begin {
        path: RepoPath,
        seen: u64,
    },
    /// What a reference names.
    GetRef {
        pin: u8,
        name: RefName,
    },
    /// The references whose names begin so.
    ListRefs {
        pin: u8,
        prefix: Word,
    },
    /// The record of an object.
    Cat {
        pin: u8,
        name: Name,
    },
    /// Commit what was staged: updates and checks in order of first staging, and records in order of first putting.
    Commit {
        pin: u8,
        refs: RefUpdates,
        records: AddedRecords,
    },
    /// Give a transaction or a job up.
    Abort {
        pin: u8,
    },
    /// Open a job.
    HouseOpen {
        path: RepoPath,
        job: Job,
    },
    /// Do some units of a job.
    HouseStep {
        pin: u8,
        n: u32,
    },
    /// Commit a job.
    HouseCommit {
        pin: u8,
    },
    /// Bring some entries into the files of references and objects.
    Apply {
        n: u32,
    },
    /// Move the floor, and remove what isn't named any more.
    Trim,
    /// Remove every file that isn't named.
    Sweep,
}
