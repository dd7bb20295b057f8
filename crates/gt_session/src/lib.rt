//! The sessions of a script: what their lines come to, over any partitions.
#![tactic(auto)]

mod applying;
mod laws;
mod listing;
mod looking;
mod numbered;
mod parts;
mod positions;
mod session;
mod staging;
mod together;
mod transacting;
mod values;
mod words;

pub use laws::{forgotten_sessions_hold_nothing, new_sessions_hold_nothing};
pub use numbered::Numbered;
pub use parts::Parts;
pub use session::Session;
pub use together::Sessions;
