//! A partition's contents stay sound, whatever step it takes: laws of the machine alone, each proved as the contract of
//! a function that does nothing.
#![tactic(auto)]

mod laws;

pub use laws::{
    openings_keep_states_sound, parts_of_sound_states_are_sound, steps_keep_states_sound,
    the_empty_log_is_sound,
};
