//! Packs: records in one file, found by their names (docs/FORMATS.md, "Pack").
#![tactic(auto)]

mod builder;
mod error;
mod index;
mod laws;
mod placed;
mod reading;
mod spelling;

pub use builder::PackBuilder;
pub use error::PackError;
pub use index::PackIndex;
pub use laws::{no_pack_begins_another, records_are_found, records_stand};
pub use placed::Placed;
