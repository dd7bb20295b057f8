//! Application: what entries of a log make of a manifest, and the files that they add (docs/FORMATS.md, "Application").
#![tactic(auto)]

mod copies;
mod counting;
mod entering;
mod filing;
mod laws;
mod new_file;
mod placing;
mod planning;
mod rearranging;
mod records;
mod repos;
mod shelves;
mod short;
mod values;
mod writes;

pub use copies::copied_path;
pub use counting::count_files;
pub use laws::plans_fit;
pub use new_file::{FileList, NewContent, NewFile};
pub use planning::plan;
pub use records::added_by;
pub use repos::{Own, paths_of, repos_at};
pub use short::is_short;
