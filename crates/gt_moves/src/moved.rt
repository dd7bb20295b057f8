use gt_list::ListOf;
use gt_name::{Name, RepoPath};
use gt_object::Record;
use gt_objset::Place;
use std::snapshot::Snapshot;

/// An own object of a repository stands at another place from now on.
#[derive(Drop)]
pub struct Move {
    /// The position of the entry that added it.
    pub position: u64,
    /// The path of the repository.
    pub path: RepoPath,
    /// The object's name.
    pub name: Name,
    /// Where its record stands.
    pub place: Place,
    /// The record. It has no bytes here: contracts alone see it.
    pub whole: Snapshot<Record>,
}

/// Moves, repository after repository.
pub type Moves = ListOf<Move>;
