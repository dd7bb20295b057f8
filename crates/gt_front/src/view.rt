// What the rule of a history speaks of. No value of a view is made.
use gt_model::Entry;
use std::collections::LinkedList;

/// What one seat knows: whether it is the owner's, whether it was joined into another, the entries from the first position on, a
/// list that was taken in and is yet to be compared, and the greatest number that it loaded.
pub struct View {
    pub owns: bool,
    pub spent: bool,
    pub first: u64,
    pub list: LinkedList<Entry>,
    pub told: LinkedList<Entry>,
    pub number: u64,
}
