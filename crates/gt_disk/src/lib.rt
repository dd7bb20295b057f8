//! Files on a disk, what a read of them shows, and what a stop at any moment may leave.
//! `Disk` is what the store asks of a disk, and `MemDisk` and `SteadyDisk` are disks in memory.
//! Which files a store has on it, by kind and number, stands here once.
#![tactic(auto)]

mod call;
mod contents;
mod disk;
mod errors;
mod fault;
mod file_id;
mod image;
mod kinds;
mod mem;
mod plan;
mod records;
mod replayed;
mod steady;
mod stop;
mod synced;
mod whole;

pub use disk::Disk;
pub use errors::{DiskError, Failed};
pub use fault::Fault;
pub use file_id::FileId;
pub use kinds::{GATE, TURN, entry_file, loose_file, manifest_file, pack_file, packed_file};
pub use mem::MemDisk;
pub use steady::SteadyDisk;
pub use stop::Stop;
pub use synced::{append_synced, write_synced};
pub use whole::read_whole;
