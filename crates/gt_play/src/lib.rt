//! Scripts played over disks in memory, by the calls of the program: over a disk that tells what it reads and what a stop
//! leaves of it, and over one that tells nothing, as a folder does.
#![tactic(auto)]

mod hosting;
mod mute_disk;
mod mute_host;
mod playing;
mod replaying;
mod setting;

pub use hosting::host_of;
pub use mute_disk::MuteDisk;
pub use mute_host::MuteHost;
pub use playing::{Ended, play, play_mute};
pub use setting::Setting;
