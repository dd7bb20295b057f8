//! A log of entries, each a file of its own. The gate's length says how many of them are in.
#![tactic(auto)]

mod laws;
mod log;
mod log_error;
mod mount_cause;
mod mount_error;

pub use laws::{later_entries_stand, recovers_by_its_files};
pub use log::Log;
pub use log_error::LogError;
pub use mount_cause::MountCause;
pub use mount_error::MountError;
