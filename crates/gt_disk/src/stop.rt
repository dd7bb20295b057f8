/// Which of the images that a stop may leave it leaves.
#[derive(Clone, Copy, Debug, PartialEq, Eq)]
pub enum Stop {
    /// Files that were written or removed and not synced are absent, and appended bytes that were not synced are lost.
    Least,
    /// What the disk read at that moment.
    Most,
    /// A file that was written or removed and not synced holds the one byte 0xFF,
    /// and of k bytes that were appended and not synced there are (k + 1) / 2 bytes 0xAA.
    Junk,
}
