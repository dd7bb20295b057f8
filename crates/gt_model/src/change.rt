use crate::{AddedRecords, RefUpdates};
use gt_name::{Names, RepoPath};

/// What an entry does to the repository at its path.
#[derive(Clone, Drop)]
pub enum Change {
    /// A new repository, or a new pool.
    Create {
        pool: bool,
    },
    /// The repository goes.
    Delete,
    /// It becomes a member of a pool, whose objects are visible in it from then on.
    Link {
        pool: RepoPath,
    },
    /// References move, and records are added.
    Write {
        /// Updates and checks, in order of first staging, no reference twice.
        refs: RefUpdates,
        /// Names that it relies on and doesn't add, ascending.
        needed: Names,
        /// The records that it adds, ascending by name.
        added: AddedRecords,
    },
    /// Its objects are in one file, but for those that are dropped since its pool has them.
    Repack {
        file: u64,
        dropped: Names,
    },
    /// Its objects are in one file, but for those that are dropped since nothing needs them.
    Prune {
        file: u64,
        dropped: Names,
    },
    /// Its references are in one file.
    PackRefs {
        file: u64,
    },
    /// It leaves its pool, and owns from then on what it saw there.
    Unlink {
        file: u64,
    },
}
