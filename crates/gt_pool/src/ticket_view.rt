use std::collections::LinkedList;

/// What one pass of the ticket queue knows. It exists in proofs alone: no value of it is made.
pub struct TicketView {
    /// Its parts of the right to know the whole; there are 1,024.
    pub parts: u64,
    /// The tickets that it put.
    pub put: LinkedList<u8>,
    /// The tickets that it took.
    pub taken: LinkedList<u8>,
}
