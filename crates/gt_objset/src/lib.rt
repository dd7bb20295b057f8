//! The places of objects at each position of a log, found in a logarithm.
#![tactic(auto)]

mod head;
mod in_pool;
mod laws;
mod listing;
mod members;
mod merging;
mod objset;
mod place;
mod plan;
mod raising;
mod repo;
mod repos;
mod seeding;
mod slots;
mod spelling;

pub use laws::{
    own_objects_have_places, raised_tables_agree, repointed_tables_agree, seeded_tables_agree,
    tables_follow_their_logs,
};
pub use objset::ObjSet;
pub use place::Place;
