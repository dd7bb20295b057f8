//! Reachability in pieces: the least set of pairs that has its roots and what its members mention.
#![tactic(auto)]

mod error;
mod laws;
mod mark;
mod marked;
mod reads;

pub use error::ReadError;
pub use laws::marks_end_with_the_least_set;
pub use mark::Mark;
pub use marked::{Marked, Pairs};
pub use reads::Reads;
