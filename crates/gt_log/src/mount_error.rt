use crate::MountCause;

/// Why a disk could not be mounted, and the disk, which comes back.
#[derive(Drop)]
pub struct MountError<D> {
    pub cause: MountCause,
    pub disk: D,
}
