//! Programs that read files: what they answer goes by the files that they ask for, and stays where only others change.
#![tactic(auto)]

mod laws;

pub use laws::{calls_elsewhere_leave_answers, programs_go_by_what_they_ask};
