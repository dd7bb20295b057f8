use gt_list::ListOf;
use gt_name::{Name, RefName};

/// What a transaction does at one reference: it moves it, or only checks where it is.
#[derive(Clone, Drop)]
pub struct RefUpdate {
    pub name: RefName,
    /// The value that is expected there, zero where no reference is.
    pub old: Name,
    /// The value that it gets, zero where it is deleted. None is a check, which leaves it.
    pub new: Option<Name>,
}

/// Updates and checks, in order of first staging.
pub type RefUpdates = ListOf<RefUpdate>;
