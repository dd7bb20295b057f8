use crate::RefList;
use gt_name::Name;
use gt_object::Record;

/// What was done.
#[derive(Clone, Drop)]
pub enum Done {
    /// A repository, or a pool, was made by the entry at this position.
    Created { position: u64, pool: bool },
    /// It was deleted by the entry at this position.
    Deleted { position: u64 },
    /// It was linked to a pool by the entry at this position.
    Linked { position: u64 },
    /// A transaction reads this position from now on.
    Begun { position: u64 },
    /// What was staged is the entry at this position.
    Committed { position: u64 },
    /// Nothing was staged, and the transaction that read this position has ended.
    Finished { position: u64 },
    /// A job reads this position from now on.
    HouseOpen { position: u64 },
    /// A job's change is the entry at this position.
    HouseDone { position: u64 },
    /// The entries up to this position are in the files of references and objects.
    Applied { position: u64 },
    /// No position below this one is kept.
    Trimmed { low: u64 },
    /// What a reference names, or none.
    Value { value: Option<Name> },
    /// References, ascending.
    Refs { list: RefList },
    /// A record.
    Object { whole: Record },
    /// A record was staged under this name.
    Named { name: Name },
    /// An update was staged.
    Staged,
    /// A check was staged.
    Checked,
    /// A transaction or a job was given up.
    Aborted,
    /// A piece of a job was done, and whether it was the last.
    Step { ready: bool },
    /// The files that nothing names are gone.
    Swept,
    /// Everything was mounted again.
    Restarted,
}
