// Why a call of a disk fails.
use gt_list::NoMemory;
use std::alloc::{AllocError, AllocFailed};

/// The device failed. Each disk counts how often it did: `Disk::faults`.
#[derive(Clone, Copy, Debug, PartialEq, Eq)]
pub struct Failed;

/// Why a call that may need memory fails.
#[derive(Clone, Copy, Debug, PartialEq, Eq)]
pub enum DiskError {
    /// The device failed, and the disk has counted it.
    Failed,
    /// Memory ran out. What a read shows is unchanged.
    Memory,
}

impl From<Failed> for DiskError {
    ghost use Rattle.std.specs.Prelude.{◌≡◌};
    ghost use Rattle.gt_disk.specs.declared.errors.DiskError.TheVariants as variants;

    ghost from_gives = { λ _ e. e ≡ variants.Failed };

    fn from(_failed: Failed) -> DiskError {
        DiskError::Failed
    }
}

impl From<NoMemory> for DiskError {
    ghost use Rattle.std.specs.Prelude.{◌≡◌};
    ghost use Rattle.gt_disk.specs.declared.errors.DiskError.TheVariants.{Memory};

    ghost from_gives = { λ _ e. e ≡ Memory };

    fn from(_error: NoMemory) -> DiskError {
        DiskError::Memory
    }
}

impl From<AllocError> for DiskError {
    ghost use Rattle.std.specs.Prelude.{◌≡◌};
    ghost use Rattle.gt_disk.specs.declared.errors.DiskError.TheVariants.{Memory};

    ghost from_gives = { λ _ e. e ≡ Memory };

    fn from(_error: AllocError) -> DiskError {
        DiskError::Memory
    }
}

impl<T: Drop> From<AllocFailed<T>> for DiskError {
    ghost use Rattle.std.specs.Prelude.{◌≡◌};
    ghost use Rattle.gt_disk.specs.declared.errors.DiskError.TheVariants.{Memory};

    ghost from_gives = { λ _ e. e ≡ Memory };

    fn from(_error: AllocFailed<T>) -> DiskError {
        DiskError::Memory
    }
}
