//! Entries of a partition's log, as bytes (docs/FORMATS.md, "Entry").
#![tactic(auto)]

mod decoding;
mod encoding;
mod error;
mod fields;
mod laws;
mod names;
mod reading;
mod records;
mod refs;
mod version;

pub use decoding::decode_entry;
pub use encoding::encode_entry;
pub use error::EntryError;
pub use laws::{
    law_entries_are_read_again, law_entries_are_read_exactly, law_no_entry_begins_another,
};
pub use version::Version;
