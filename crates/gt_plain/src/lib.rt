//! The definitions as plain functions: searches through lists, in the stated order. They are slow, and for small contents:
//! driver programs compare what is quick with them.
#![tactic(auto)]

mod apply;
mod checks;
mod commit;
mod content;
mod fits;
mod looks;
mod names;
mod needs;
mod own;
mod present;
mod refs;
mod repo;

pub use commit::{PlainReady, verdict};
pub use content::PlainContent;
pub use needs::{added_records, ascending, deps_of};
pub use own::PlainOwn;
pub use refs::PlainRefs;
pub use repo::PlainRepo;
