use gt_list::ListOf;
use gt_name::{Name, RefName, RepoPath};

/// A reference and its value.
#[derive(Clone, Drop)]
pub struct RefValue {
    pub name: RefName,
    pub value: Name,
}

/// References of one repository, ascending.
pub type RefList = ListOf<RefValue>;

/// A reference of a repository, and its value.
#[derive(Clone, Drop)]
pub struct RefAt {
    pub path: RepoPath,
    pub name: RefName,
    pub value: Name,
}

/// References of many repositories, ascending by path, then by name.
pub type RefsAt = ListOf<RefAt>;
