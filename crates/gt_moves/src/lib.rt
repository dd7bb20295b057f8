//! What an application moves: where the records that a batch of entries added stand in the packs of its new files
//! (docs/FORMATS.md, "Application" and "Pack").
#![tactic(auto)]

mod finding;
mod laws;
mod laying;
mod moved;
mod moving;
mod planning;

pub use laws::{
    every_added_record_moves, moved_records_stand, moves_are_within, moves_have_their_records,
};
pub use moved::{Move, Moves};
pub use planning::planned_moves;
