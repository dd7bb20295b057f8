use gt_name::{Name, RefName};

/// What names an object that isn't there.
#[derive(Clone, Drop)]
pub enum Needer {
    /// A reference, by its new value.
    Ref(RefName),
    /// An added record, by its name.
    Object(Name),
}
