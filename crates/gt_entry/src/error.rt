ghost use Rattle.std.specs.Prelude.{◌≡◌};
ghost use Rattle.gt_entry.specs.Answers.{Turns};
ghost use Rattle.gt_entry.specs.declared.error.EntryError.TheVariants.{BadEntry, Memory};

use gt_bytes::{FieldError, Short};
use gt_list::NoMemory;
use std::alloc::{AllocError, AllocFailed};

/// Why the bytes are no entry, or why none could be written.
#[derive(Debug, Drop, PartialEq, Eq)]
pub enum EntryError {
    /// The field that begins at this place, counted in bytes from 0, is cut or has a value that may not stand there.
    BadEntry { at: usize },
    /// Memory ran out.
    Memory,
}

impl From<FieldError> for EntryError {
    ghost from_gives = { Turns };

    fn from(error: FieldError) -> EntryError {
        match error {
            FieldError::BadField { at } => EntryError::BadEntry { at },
            FieldError::Memory => EntryError::Memory,
        }
    }
}

impl From<Short> for EntryError {
    ghost from_gives = { λ s e. e ≡ BadEntry s.at };

    fn from(short: Short) -> EntryError {
        EntryError::BadEntry { at: short.at }
    }
}

impl From<NoMemory> for EntryError {
    ghost from_gives = { λ _ e. e ≡ Memory };

    fn from(_error: NoMemory) -> EntryError {
        EntryError::Memory
    }
}

impl From<AllocError> for EntryError {
    ghost from_gives = { λ _ e. e ≡ Memory };

    fn from(_error: AllocError) -> EntryError {
        EntryError::Memory
    }
}

impl<T: Drop> From<AllocFailed<T>> for EntryError {
    ghost from_gives = { λ _ e. e ≡ Memory };

    fn from(_failed: AllocFailed<T>) -> EntryError {
        EntryError::Memory
    }
}
