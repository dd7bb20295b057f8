//! Manifests: which files hold the content of a partition at its applied position (docs/FORMATS.md, "Manifest").
#![tactic(auto)]

mod decoding;
mod encoding;
mod error;
mod fields;
mod items;
mod laws;
mod manifest;
mod reading;
mod version;
mod whole;

pub use error::ManifestError;
pub use laws::{
    law_a_manifest_is_read_again, law_no_manifest_begins_another,
    law_whole_is_what_the_reader_accepts,
};
pub use manifest::{Loose, LooseList, Manifest, Numbers, RepoFiles, RepoList};
pub use version::Version;
