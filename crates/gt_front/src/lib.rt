//! The history of a partition beside its readers: a word that its owner alone raises, under a rule. The owner's list of entries
//! reaches to the word, every reader's list is a front of the owner's, and each number that was loaded is at most the word.
#![tactic(auto)]

mod history;
mod rule;
mod told;
mod view;

pub use history::{History, Owner, Reader};
pub use told::Told;
pub use view::View;
