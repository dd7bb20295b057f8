//! The top call: a script of requests over the disk of a partition, one answer line a request.
#![tactic(auto)]

mod answering;
mod doing;
mod local;
mod playing;
mod script;
mod status;
mod top;
mod within;
mod words;
mod working;

pub use script::ScriptError;
pub use status::Status;
pub use top::gitstore_plain;
pub use within::replay_within;
