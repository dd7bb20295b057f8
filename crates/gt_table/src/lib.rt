//! The entries of a log past a base, and the content that base and log have made at each position.
#![tactic(auto)]

mod entry_log;
mod fitting;
mod front;
mod seeding;
mod table;

pub use table::Table;
