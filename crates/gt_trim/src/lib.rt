//! What a trim removes: how far back the live transactions read, which of the known files nothing names, and how files are
//! removed from a disk.
#![tactic(auto)]

mod files;
mod low;
mod removing;
mod unnamed;

pub use files::FileIds;
pub use low::low_water;
pub use removing::{remove_all, remove_synced};
pub use unnamed::removable;
