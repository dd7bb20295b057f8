ghost use Rattle.std.specs.Prelude.{◌≡◌};
ghost use Rattle.gt_reftext.specs.declared.error.RefTextError.TheVariants.{Memory};

use gt_list::NoMemory;
use std::alloc::{AllocError, AllocFailed};

/// The first line of a file, counted from 1, that may not stand there.
#[derive(Clone, Copy, Debug, PartialEq, Eq)]
pub struct BadLine {
    /// Counted from 1.
    pub line: usize,
}

/// Why a text is no packed file, or why none could be written.
#[derive(Debug, Drop, PartialEq, Eq)]
pub enum RefTextError {
    /// The first line, counted from 1, that may not stand there.
    BadLine { line: usize },
    /// Memory ran out.
    Memory,
}

impl From<NoMemory> for RefTextError {
    ghost from_gives = { λ _ e. e ≡ Memory };

    fn from(_error: NoMemory) -> RefTextError {
        RefTextError::Memory
    }
}

impl From<AllocError> for RefTextError {
    ghost from_gives = { λ _ e. e ≡ Memory };

    fn from(_error: AllocError) -> RefTextError {
        RefTextError::Memory
    }
}

impl<T: Drop> From<AllocFailed<T>> for RefTextError {
    ghost from_gives = { λ _ e. e ≡ Memory };

    fn from(_failed: AllocFailed<T>) -> RefTextError {
        RefTextError::Memory
    }
}
