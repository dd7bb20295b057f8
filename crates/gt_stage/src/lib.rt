//! What a transaction has staged: updates and checks of references in order of first staging, and records in order of
//! first putting.
#![tactic(auto)]

mod error;
mod laws;
mod records;
mod refs;
mod stage;

pub use error::StageError;
pub use laws::law_stage;
pub use stage::Stage;
