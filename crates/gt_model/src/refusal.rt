use crate::Needer;
use gt_disk::FileId;
use gt_name::{Name, RefName, RepoPath};

/// Why nothing was done.
#[derive(Clone, Drop)]
pub enum Refusal {
    /// The content that is read lacks the path.
    NoRepository,
    /// The content at the front has the path.
    RepositoryExists,
    /// The content at the front lacks the path of the transaction.
    RepositoryGone,
    /// The client has seen a later position than the front.
    Behind {
        seen: u64,
        front: u64,
    },
    /// As many transactions and jobs are live as the limit allows.
    PinsFull,
    /// No object of this name is visible.
    Absent {
        name: Name,
    },
    /// The value at a reference isn't the one that was expected.
    ReferenceConflict {
        name: RefName,
        expected: Name,
        actual: Name,
    },
    /// One of two references would stand in the other's folder.
    DirectoryConflict {
        name: RefName,
        existing: RefName,
    },
    /// An object that is needed is neither visible nor added.
    MissingObject {
        name: Name,
        needed_by: Needer,
    },
    /// An entry behind the job's position is in its way.
    HousekeepingConflict {
        position: u64,
    },
    /// An entry behind the job's position needs what it would drop.
    PrunedObject {
        name: Name,
        position: u64,
    },
    /// The log has as many entries as the limit allows.
    LogFull,
    /// There are as many checkpoints as the limit allows.
    EpochFull,
    /// The map has as many entries as the limit allows.
    MapFull,
    /// The stage has as many bytes or references as the limit allows.
    StageFull,
    /// Header and content together are over the limit of a record.
    TooLarge,
    /// The content breaks the grammar of its kind here, in bytes from 0.
    BadObject {
        at: u64,
    },
    /// The first broken rule of a reference's name, and its place, in bytes from 0.
    BadRef {
        rule: u8,
        at: u64,
    },
    /// The place where the first broken rule of a path is broken, in bytes from 0.
    BadPath {
        at: u64,
    },
    /// The member of a link is a pool.
    IsPool,
    /// The pool of a link isn't one.
    NotPool,
    /// The member of a link has a pool.
    AlreadyLinked,
    /// The repository has no pool.
    NotLinked,
    /// A member has it as its pool; this is the least one.
    PoolInUse {
        member: RepoPath,
    },
    /// The two paths are in two partitions.
    OtherPartition,
    /// The session has no transaction.
    NotOpen,
    /// The session has a transaction or a job.
    AlreadyOpen,
    /// The session has no job.
    NoJob,
    /// The session's job isn't ready.
    NotReady,
    /// The disk failed before the entry could be in the log.
    DeviceFault,
    /// The disk failed later: the entry is in the log or not, which is found out before the next change.
    Unsure {
        position: u64,
    },
    /// The same of an assignment in the map.
    MapUnsure {
        number: u64,
    },
    /// The disk doesn't hold the object of that name at its place.
    Damaged {
        file: FileId,
        at: u64,
    },
    /// Memory ran out.
    Memory,
}
