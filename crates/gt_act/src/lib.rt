//! Each event over the log in memory and its live transactions: what is in doubt is settled, the answer is found by the
//! machine's causes in their order, and an entry is added where one is to be.
#![tactic(auto)]

mod aborting;
mod adding;
mod applying;
mod beginning;
mod committing;
mod creating;
mod deleting;
mod ended;
mod objects;
mod partition_state;
mod reading;
mod reply;

pub use aborting::abort;
pub use applying::apply;
pub use beginning::begin;
pub use committing::commit;
pub use creating::create;
pub use deleting::delete;
pub use ended::Ended;
pub use objects::cat;
pub use partition_state::PartitionState;
pub use reading::{get_ref, list_refs};
pub use reply::Reply;
