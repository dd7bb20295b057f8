/// The two spellings of entries. Each entry has one of them.
#[derive(Clone, Copy, Debug, PartialEq, Eq)]
pub enum Version {
    /// `GTE1`: an entry without a check.
    First,
    /// `GTE2`: a write with at least one check.
    Second,
}
