use crate::{RefsAt, Turn};
use gt_list::ReservedVec;

/// What happened in one opening of a partition.
#[derive(Drop)]
pub struct Trail {
    /// Its events, in order.
    pub turns: ReservedVec<Turn>,
    /// The references at the opening.
    pub opening: RefsAt,
}
