/// Why entries were not applied.
#[derive(Clone, Copy, Debug, PartialEq, Eq)]
pub enum ApplyError {
    /// The epoch is at its limit, or no file number is left.
    EpochFull,
    /// A device failed: the entries are applied or not.
    Failed,
    /// Memory ran out, and nothing has changed.
    Memory,
}
