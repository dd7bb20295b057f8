//! What jobs and applications come to, as plain functions over a plain content: slow, and for small contents.
#![tactic(auto)]

mod batches;
mod conflicts;
mod files;
mod jobs;
mod marks;
mod objects;
mod prunes;
mod repos;
mod tags;
mod text;
mod texts;
mod units;

pub use batches::{files_of, next_past};
pub use conflicts::{head, is_kin, job_conflict};
pub use files::PlainFile;
pub use jobs::{dropped_by, units_of};
pub use marks::marked;
pub use objects::{brought_objects, left_objects, owned, pooled, repacked};
pub use prunes::{prune_units, pruned};
pub use repos::{files_at, new_files, paths_of, repos_at};
pub use tags::{peel, peeled, tag_count};
pub use text::Text;
pub use units::{kept_count, ref_units, repack_units, unlink_units};
