use crate::{Name, RefName, RepoPath};
use gt_list::ListOf;

/// Names of objects.
pub type Names = ListOf<Name>;

/// Names of references.
pub type Names2 = ListOf<RefName>;

/// Paths of repositories.
pub type Paths = ListOf<RepoPath>;
