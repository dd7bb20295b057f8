//! The values of one key, each from a position on, found in a logarithm: what both tables of a partition are made of.
#![tactic(auto)]

mod laws;
mod raising;
mod reading;
mod runs;
mod versions;

pub use laws::later_versions_leave_earlier_positions;
pub use versions::Versions;
