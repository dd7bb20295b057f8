use gt_list::ListOf;
use gt_name::{Name, RefName};

/// A reference as a packed file has it.
#[derive(Drop)]
pub struct PackedRef {
    /// The reference.
    pub name: RefName,
    /// The object that it names.
    pub value: Name,
    /// Where that object is a tag, the first object behind tags, if the file says it.
    pub peeled: Option<Name>,
}

/// References of a packed file.
pub type PackedList = ListOf<PackedRef>;
