//! The checks of a commit against the content at the front, and the entry that a good commit adds.
#![tactic(auto)]

mod checked;
mod checking;
mod writing;

pub use checked::Checked;
pub use checking::check_commit;
