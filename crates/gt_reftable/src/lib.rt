//! The references of every repository at each position from the floor to the front, found in a logarithm.
#![tactic(auto)]

mod adding;
mod current;
mod laws;
mod listing;
mod preparing;
mod raising;
mod repo;
mod seeding;
mod table;

pub use laws::{
    empty_tables_agree, lists_are_of_contents, raised_tables_agree, references_are_values,
    same_tables_agree, tables_follow_their_log,
};
pub use table::RefTable;
