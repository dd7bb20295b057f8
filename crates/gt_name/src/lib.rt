//! Names of objects, references and repositories.
#![tactic(auto)]

mod component;
mod error;
mod laws;
mod lists;
mod name;
mod path;
mod places;
mod reference;

pub use error::{BadName, NameError};
pub use laws::{law_byte_order, law_name, law_paths, law_references};
pub use lists::{Names, Names2, Paths};
pub use name::Name;
pub use path::RepoPath;
pub use reference::RefName;
