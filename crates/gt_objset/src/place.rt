use gt_disk::FileId;

/// Where a record stands on the disk.
#[derive(Clone, Copy, Debug, PartialEq, Eq)]
pub struct Place {
    /// The file that has it.
    pub file: FileId,
    /// Where it begins in the file, in bytes from 0.
    pub at: u64,
    /// How many bytes it has.
    pub len: u32,
}
