//! One partition: a log of entries over a disk of its own, what the log has made at each position, the transactions that
//! read it, and the trail of its events.
#![tactic(auto)]

mod applying;
mod changing;
mod noting;
mod partition;
mod transacting;

pub use partition::Partition;
