//! The real outside: folders as disks, standard input and standard output. They tell nothing of content, but that an input is what
//! the runtime's reader gives: what the system does with a call is trusted, and tried by the rows of `edge_rows` and by checks
//! behind the gate.
#![tactic(auto)]

mod counting;
mod disk_slot;
mod file_set;
mod filling;
mod folder_disk;
mod folder_host;
mod kept;
mod making;
mod naming;
mod standard_input;
mod standard_output;
mod trouble;

pub use folder_disk::FolderDisk;
pub use folder_host::FolderHost;
pub use standard_input::StandardInput;
pub use standard_output::StandardOutput;
