//! The next checkpoint of a disk: what an application of entries adds is written to files of their own, and then the manifest
//! that names them counts.
#![tactic(auto)]

mod advancing;
mod files;

pub use advancing::advance;
