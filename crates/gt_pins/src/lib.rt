//! What readers keep: the live transactions of a partition, each under a number of its own, and slots that keep positions of
//! a log.
#![tactic(auto)]

mod full;
mod laws;
mod live;
mod pin;
mod pins;

pub use full::PinsFull;
pub use laws::{free_numbers_are_free, others_stay_live, released_pins_are_gone};
pub use live::{Live, LivePin};
pub use pin::Pin;
pub use pins::Pins;

#[cfg(test)]
mod tests;
