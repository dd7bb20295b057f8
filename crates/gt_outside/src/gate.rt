/// Where workers may be held up between two requests, so that a test can have them meet. It changes nothing that clauses see.
pub trait Gate {
    /// Comes to a line: before its request, and again once it is answered.
    fn meet(&self, line: u32, answered: bool);
}
