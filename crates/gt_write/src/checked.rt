use gt_model::{Entry, Refusal};

/// What the checks of a commit come to.
#[derive(Drop)]
pub enum Checked {
    /// They pass, and this entry is to be added.
    Good(Entry),
    /// One fails. There are two copies of the refusal, one to answer and one to keep.
    Refused { answer: Refusal, kept: Refusal },
    /// They pass, and the log is at its limit.
    Full,
    /// Memory ran out.
    Memory,
}
