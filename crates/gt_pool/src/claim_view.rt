use std::collections::LinkedList;

/// What one claimer knows. It exists in proofs alone: no value of it is made.
pub struct ClaimView {
    /// Its parts of the right to know the whole; there are 1,024.
    pub parts: u64,
    /// How many numbers there are.
    pub count: u64,
    /// How many claimers in it found the word past the count.
    pub over: u64,
    /// The numbers that it claimed.
    pub claims: LinkedList<u64>,
}
