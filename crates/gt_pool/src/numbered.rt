/// The piece of an index.
#[derive(Drop)]
pub struct Numbered<P> {
    /// The index.
    pub index: u32,
    /// What the work on it gave.
    pub piece: P,
}
