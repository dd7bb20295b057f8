ghost use Rattle.std.specs.Prelude.{◌≡◌};
ghost use Rattle.gt_verify.specs.declared.error.VerifyError.TheVariants.{Memory};

use gt_list::NoMemory;
use gt_model::Needer;
use gt_name::{Name, RefName};
use std::alloc::AllocError;

/// Why a commit is refused.
#[derive(Drop)]
pub enum VerifyError {
    /// The content lacks the path.
    RepositoryGone,
    /// The value at a reference isn't the one that was expected. Zero stands for no reference.
    ReferenceConflict {
        name: RefName,
        expected: Name,
        actual: Name,
    },
    /// An updated reference and another one would stand in each other's folders; this is the least such other.
    DirectoryConflict {
        name: RefName,
        existing: RefName,
    },
    /// A new value, or an object that an added record mentions, is neither visible nor added.
    MissingObject {
        name: Name,
        needed_by: Needer,
    },
    /// Memory ran out.
    Memory,
}

impl From<NoMemory> for VerifyError {
    ghost from_gives = { λ _ e. e ≡ Memory };

    fn from(_error: NoMemory) -> VerifyError {
        VerifyError::Memory
    }
}

impl From<AllocError> for VerifyError {
    ghost from_gives = { λ _ e. e ≡ Memory };

    fn from(_error: AllocError) -> VerifyError {
        VerifyError::Memory
    }
}
