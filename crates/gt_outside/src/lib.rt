//! The outside as traits: input, output and the disks, each with a count of faults, and a gate between requests. And objects in
//! memory for each.
#![tactic(auto)]

mod disk_slot;
mod failing;
mod gate;
mod host;
mod mem_host;
mod mem_sink;
mod mem_source;
mod no_gate;
mod reading;
mod sink;
mod source;
mod steady_sink;
mod steady_source;
mod writing;

pub use gate::Gate;
pub use host::Host;
pub use mem_host::MemHost;
pub use mem_sink::MemSink;
pub use mem_source::MemSource;
pub use no_gate::NoGate;
pub use reading::{ReadError, read_whole};
pub use sink::Sink;
pub use source::Source;
pub use steady_sink::SteadySink;
pub use steady_source::SteadySource;
pub use writing::write_whole;
