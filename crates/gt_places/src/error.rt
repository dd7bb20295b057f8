/// Why a record wasn't read at its place.
#[derive(Clone, Copy, Debug, PartialEq, Eq)]
pub enum ReadError {
    /// The disk failed.
    Failed,
    /// The disk holds no record of the name at the place.
    Damaged,
    /// Memory ran out.
    Memory,
}
