/// A kind of housekeeping.
#[derive(Clone, Copy, Debug, PartialEq, Eq)]
pub enum Job {
    /// Write a repository's objects into one file.
    Repack,
    /// The same, without those that nothing needs.
    Prune,
    /// Write its references into one file.
    PackRefs,
    /// Leave its pool.
    Unlink,
}
