ghost use Rattle.std.specs.Prelude.{◌≡◌};
ghost use Rattle.gt_disk.specs.Calls.{file_of};

use crate::FileId;

/// A call that changed a disk in memory.
#[derive(Drop)]
pub enum Call {
    /// The bytes that are there since.
    Write(FileId, Vec<u8>),
    /// The piece, and how many of its bytes are there.
    Append(FileId, Vec<u8>, usize),
    /// Whether the file is gone.
    Remove(FileId, bool),
    Sync(FileId),
}

impl Call {
    /// The file that it is on.
    pub fn file(&self) -> FileId
        ensures { result ≡ file_of self.now }
    {
        match self {
            Call::Write(file, _) => *file,
            Call::Append(file, _, _) => *file,
            Call::Remove(file, _) => *file,
            Call::Sync(file) => *file,
        }
    }
}
