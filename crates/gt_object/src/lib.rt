//! Records: Git's four kinds of objects, each a header and a content, with the objects that each needs (Git's object
//! format; docs/FORMATS.md, "Records").
#![tactic(auto)]

mod content;
mod deps;
mod error;
mod header;
mod kind;
mod laws;
mod lines;
mod record;
mod tree;

pub use error::ObjectError;
pub use kind::Kind;
pub use laws::{
    commits_are_lines, faults_have_places, records_have_headers, records_have_parts,
    tags_are_lines, trees_are_entries,
};
pub use record::Record;
