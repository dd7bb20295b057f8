//! The machine of one partition as plain functions: what each event comes to, what the files may recover to, and which files
//! are still needed. They are slow, and for small states.
#![tactic(auto)]

mod applying;
mod changes;
mod committing;
mod effects;
mod ending;
mod housing;
mod named;
mod pins;
mod positions;
mod recovering;
mod state;
mod step;
mod transactions;

pub use effects::PlainEffect;
pub use recovering::{opening, unapplied};
pub use state::{PlainApplying, PlainPin, PlainPins, PlainRecovered, PlainState, PlainWork};
