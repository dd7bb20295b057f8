ghost use Rattle.std.specs.Prelude.{◌≡◌};
ghost use Rattle.gt_mark.specs.declared.error.ReadError.TheVariants.{Memory};

use gt_disk::FileId;
use gt_list::NoMemory;
use std::alloc::AllocError;

/// Why what a pair mentions isn't known.
#[derive(Clone, Copy, Debug, PartialEq, Eq)]
pub enum ReadError {
    /// A device failed.
    DeviceFault,
    /// No record of that name stands at this place of this file, where it should.
    Damaged { file: FileId, at: u64 },
    /// Memory ran out.
    Memory,
}

impl From<NoMemory> for ReadError {
    ghost from_gives = { λ _ e. e ≡ Memory };

    fn from(_error: NoMemory) -> ReadError {
        ReadError::Memory
    }
}

impl From<AllocError> for ReadError {
    ghost from_gives = { λ _ e. e ≡ Memory };

    fn from(_error: AllocError) -> ReadError {
        ReadError::Memory
    }
}
