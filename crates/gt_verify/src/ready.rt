use gt_model::RefUpdates;
use gt_name::Names;

/// What a good commit does.
#[derive(Drop)]
pub struct Ready {
    /// Its updates and checks, in order of first staging.
    pub refs: RefUpdates,
    /// The names that it relies on and doesn't add, ascending, each once: new values that aren't zero, names of staged
    /// records that were visible already, and what added records mention.
    pub needed: Names,
    /// The names of the staged records that weren't visible, ascending. These are added.
    pub added: Names,
}
