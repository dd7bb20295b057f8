use gt_disk::{DiskError, Failed, FileId};

/// Why a disk could not be mounted.
#[derive(Clone, Copy, Debug, PartialEq, Eq)]
pub enum MountCause {
    /// A device failed.
    DeviceFault,
    /// The bytes of this file are not what the store writes, from this place on.
    Damaged { file: FileId, at: u64 },
    /// Memory ran out.
    Memory,
}

impl From<Failed> for MountCause {
    ghost use Rattle.std.specs.Prelude.{◌≡◌};
    ghost use Rattle.gt_log.specs.declared.mount_cause.MountCause.TheVariants.{DeviceFault};

    ghost from_gives = { λ _ cause. cause ≡ DeviceFault };

    fn from(_failed: Failed) -> MountCause {
        MountCause::DeviceFault
    }
}

impl From<DiskError> for MountCause {
    ghost use Rattle.std.specs.Prelude.{◌≡◌};
    ghost use Rattle.gt_log.specs.Mount.{mount_cause};

    ghost from_gives = { λ error cause. cause ≡ mount_cause error };

    fn from(error: DiskError) -> MountCause {
        match error {
            DiskError::Failed => MountCause::DeviceFault,
            DiskError::Memory => MountCause::Memory,
        }
    }
}
