use crate::{Answer, Event, Who};

/// A record of what was asked and what was answered.
#[derive(Drop)]
pub struct Turn {
    pub who: Who,
    pub event: Event,
    /// Of a list of references and of an object only the position is kept: where it isn't a refusal, it is `Finished`.
    pub answer: Answer,
    /// The disk's clock as the call returned.
    pub tick: u64,
}
