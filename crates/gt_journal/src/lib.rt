//! What the files of a partition recover to: its log is loaded, or the first damage is named; it is kept in memory with what
//! it has made and with an entry that is in doubt, and goes on by one entry after the other; and entries are applied, into
//! files of their own that a manifest names.
#![tactic(auto)]

mod apply_error;
mod applying;
mod journal;
mod laws;
mod loading;
mod spelling;

pub use apply_error::ApplyError;
pub use journal::Journal;
pub use laws::{empty_disks_are_good, placed_records_are_held, stops_leave_good_disks};
