//! Where the records of own objects stand while a log grows, its records move into packs and its floor rises: laws of the
//! definitions alone, each proved as the contract of a function that does nothing.
#![tactic(auto)]

mod holding;
mod laws;

pub use holding::Holding;
pub use laws::{
    added_entries_are_held, first_tables_are_held, moved_records_leave_their_entries,
    moved_tables_are_held, moves_follow_each_other, raised_tables_are_held,
};
