ghost use Rattle.std.specs.Prelude.{◌≡◌};
ghost use Rattle.gt_bytes.specs.declared.error.FieldError.TheVariants.{BadField, Memory};

use crate::Short;
use gt_list::NoMemory;
use std::alloc::{AllocError, AllocFailed};

/// Why the bytes don't have the fields that were to be read.
#[derive(Debug, Drop, PartialEq, Eq)]
pub enum FieldError {
    /// The field that begins at this place, counted in bytes from 0, is cut or has a value that may not stand there.
    BadField { at: usize },
    /// Memory ran out.
    Memory,
}

impl From<Short> for FieldError {
    ghost from_gives = { λ s e. e ≡ BadField s.at };

    fn from(short: Short) -> FieldError {
        FieldError::BadField { at: short.at }
    }
}

impl From<NoMemory> for FieldError {
    ghost from_gives = { λ _ e. e ≡ Memory };

    fn from(_error: NoMemory) -> FieldError {
        FieldError::Memory
    }
}

impl From<AllocError> for FieldError {
    ghost from_gives = { λ _ e. e ≡ Memory };

    fn from(_error: AllocError) -> FieldError {
        FieldError::Memory
    }
}

impl<T: Drop> From<AllocFailed<T>> for FieldError {
    ghost from_gives = { λ _ e. e ≡ Memory };

    fn from(_failed: AllocFailed<T>) -> FieldError {
        FieldError::Memory
    }
}
