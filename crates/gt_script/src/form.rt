use gt_model::{Job, Word};
use gt_name::Name;
use gt_object::Kind;

/// What a line asks for. Paths, references' names and prefixes are any words: they are checked when the line is done.
#[derive(Debug, Drop)]
pub enum Form {
    /// A new repository, in the partition of another one if that is named.
    Create {
        path: Word,
        near: Option<Word>,
    },
    /// A new pool.
    Pool {
        path: Word,
    },
    /// An end of a repository.
    Delete {
        path: Word,
    },
    /// A pool for a repository.
    Link {
        path: Word,
        pool: Word,
    },
    /// A new transaction. Its session has seen this position at least.
    Begin {
        path: Word,
        from: Option<u64>,
    },
    /// A record of this kind for the stage. The content is the word as it stands: hex digits, or `-` for none.
    Put {
        kind: Kind,
        content: Word,
    },
    /// An update for the stage. `old` of None is what the transaction sees.
    Set {
        name: Word,
        old: Option<Name>,
        new: Name,
    },
    /// A check for the stage. `old` of None is what the transaction sees.
    Verify {
        name: Word,
        old: Option<Name>,
    },
    /// The value of a reference.
    Get {
        name: Word,
    },
    /// The references whose names begin with this. The empty prefix stands for a missing one.
    List {
        prefix: Word,
    },
    /// A record, by its name.
    Cat {
        name: Name,
    },
    /// The transaction's end, with what is staged.
    Commit,
    /// The end of a transaction or a job, without it.
    Abort,
    /// A new job of housekeeping.
    House {
        job: Job,
        path: Word,
    },
    /// At most so many units of the job, 1 to 65,536.
    Step {
        n: u32,
    },
    /// The job's end, with its change.
    Close,
    /// At most so many entries of this partition into files: 1 to 16, of 1 to 8.
    Apply {
        partition: u8,
        n: u32,
    },
    /// A shorter log of this partition, 1 to 8.
    Trim {
        partition: u8,
    },
    /// An end of the files that nothing in this partition names, 1 to 8.
    Sweep {
        partition: u8,
    },
    /// Everything is mounted again.
    Restart,
}
