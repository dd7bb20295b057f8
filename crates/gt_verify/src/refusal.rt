ghost use Rattle.std.specs.Prelude.{◌≡◌};
ghost use Rattle.gt_verify.specs.Refusing.{refusal_of};

use crate::VerifyError;
use gt_model::Refusal;

impl From<VerifyError> for Refusal {
    ghost from_gives = { λ e refusal. refusal ≡ refusal_of e };

    fn from(error: VerifyError) -> Refusal {
        match error {
            VerifyError::RepositoryGone => Refusal::RepositoryGone,
            VerifyError::ReferenceConflict {
                name,
                expected,
                actual,
            } => Refusal::ReferenceConflict {
                name,
                expected,
                actual,
            },
            VerifyError::DirectoryConflict { name, existing } => {
                Refusal::DirectoryConflict { name, existing }
            }
            VerifyError::MissingObject { name, needed_by } => {
                Refusal::MissingObject { name, needed_by }
            }
            VerifyError::Memory => Refusal::Memory,
        }
    }
}
