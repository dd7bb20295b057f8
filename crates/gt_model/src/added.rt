use gt_list::ListOf;
use gt_name::Name;
use gt_object::Record;

/// A record under its name.
#[derive(Clone, Drop)]
pub struct Added {
    pub name: Name,
    pub whole: Record,
}

pub type AddedRecords = ListOf<Added>;
