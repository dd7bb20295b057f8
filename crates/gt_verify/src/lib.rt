//! The verdict of a commit: what it does, or the first check that fails. It asks what is staged and a few questions about
//! the content at the front.
#![tactic(auto)]

mod added;
mod ascending;
mod deciding;
mod directory;
mod error;
mod laid;
mod missing;
mod needed;
mod needing;
mod old_values;
mod ready;
mod refusal;
mod sorted;
mod target;

pub use deciding::verdict;
pub use error::VerifyError;
pub use ready::Ready;
