ghost use Rattle.std.specs.Prelude.{◌≡◌};
ghost use Rattle.gt_object.specs.declared.error.ObjectError.TheVariants.{Memory};

use gt_list::NoMemory;
use std::alloc::{AllocError, AllocFailed};

/// Why there is no such record.
#[derive(Debug, Drop, PartialEq, Eq)]
pub enum ObjectError {
    /// Header and content together have more than 16,777,216 bytes.
    TooLarge,
    /// The first place that breaks the grammar begins here, counted in bytes from 0.
    BadObject { at: usize },
    /// Memory ran out.
    Memory,
}

impl From<NoMemory> for ObjectError {
    ghost from_gives = { λ _ e. e ≡ Memory };

    fn from(_error: NoMemory) -> ObjectError {
        ObjectError::Memory
    }
}

impl From<AllocError> for ObjectError {
    ghost from_gives = { λ _ e. e ≡ Memory };

    fn from(_error: AllocError) -> ObjectError {
        ObjectError::Memory
    }
}

impl<T: Drop> From<AllocFailed<T>> for ObjectError {
    ghost from_gives = { λ _ e. e ≡ Memory };

    fn from(_failed: AllocFailed<T>) -> ObjectError {
        ObjectError::Memory
    }
}
