//! The files of repositories as plain functions: what an application makes of them, and which files an entry and a manifest
//! name. They are slow, and for small states.
#![tactic(auto)]

mod adding;
mod files;
mod filing;
mod numbers;
mod placing;
mod shelf;
mod shelves;

pub use adding::{add_entries, add_entry, add_manifest, add_taken, add_whole};
pub use files::add_file;
pub use filing::{PlainFiling, PlainTaken};
pub use numbers::PlainNumbers;
pub use placing::filed_all;
pub use shelf::PlainShelf;
pub use shelves::PlainShelves;
