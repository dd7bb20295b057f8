ghost use Rattle.std.specs.Prelude.{◌≡◌};
ghost use Rattle.gt_manifest.specs.Answers.{Turns};
ghost use Rattle.gt_manifest.specs.declared.error.ManifestError.TheVariants.{Memory};

use gt_bytes::FieldError;
use gt_list::NoMemory;
use std::alloc::{AllocError, AllocFailed};

/// Why the bytes are no manifest, or why none could be written.
#[derive(Debug, Drop, PartialEq, Eq)]
pub enum ManifestError {
    /// The field that begins at this place, counted in bytes from 0, is cut or has a value that may not stand there.
    BadManifest { at: usize },
    /// Memory ran out.
    Memory,
}

impl From<FieldError> for ManifestError {
    ghost from_gives = { Turns };

    fn from(error: FieldError) -> ManifestError {
        match error {
            FieldError::BadField { at } => ManifestError::BadManifest { at },
            FieldError::Memory => ManifestError::Memory,
        }
    }
}

impl From<NoMemory> for ManifestError {
    ghost from_gives = { λ _ e. e ≡ Memory };

    fn from(_error: NoMemory) -> ManifestError {
        ManifestError::Memory
    }
}

impl From<AllocError> for ManifestError {
    ghost from_gives = { λ _ e. e ≡ Memory };

    fn from(_error: AllocError) -> ManifestError {
        ManifestError::Memory
    }
}

impl<T: Drop> From<AllocFailed<T>> for ManifestError {
    ghost from_gives = { λ _ e. e ≡ Memory };

    fn from(_failed: AllocFailed<T>) -> ManifestError {
        ManifestError::Memory
    }
}
