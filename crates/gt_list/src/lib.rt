//! A list that contracts see as the list of its items, and the error of a call that only runs out of memory.
#![tactic(auto)]

mod list;
mod memory;
mod reserved_vec;

pub use list::ListOf;
pub use memory::NoMemory;
pub use reserved_vec::ReservedVec;
