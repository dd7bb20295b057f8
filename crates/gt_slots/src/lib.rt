//! The references of one repository: a sorted map in pages, each reference with its values from positions on.
#![tactic(auto)]

mod clashing;
mod editing;
mod finding;
mod inserting;
mod listing;
mod page;
mod probe;
mod raising;
mod removing;
mod slots;

pub use slots::Slots;
