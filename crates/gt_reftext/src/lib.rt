//! The two text files of references: a loose file has one value, and a packed file has a line for each reference
//! (docs/FORMATS.md, "Reference files"). The packed file is Git's `packed-refs`.
#![tactic(auto)]

mod error;
mod laws;
mod lines;
mod loose;
mod packed_ref;
mod reading;
mod so_far;
mod writing;

pub use error::{BadLine, RefTextError};
pub use laws::{law_loose_files, law_written_is_read};
pub use lines::line_begin;
pub use loose::{read_loose, write_loose};
pub use packed_ref::{PackedList, PackedRef};
pub use reading::read_packed;
pub use writing::write_packed;
