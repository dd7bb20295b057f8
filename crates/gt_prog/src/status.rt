ghost use Rattle.std.specs.Prelude.{◌≡◌, IfOk, string_bytes};
ghost use Rattle.gt_prog.specs.Exits.{exit_code, exit_text};

use gt_disk::FileId;
use std::alloc::{AllocError, Global};

/// How the program ended.
#[derive(Clone, Copy, Debug, PartialEq, Eq)]
pub enum Status {
    /// The input was read to its end, and every answer was written.
    Done,
    /// The words aren't known.
    Usage,
    /// The input failed.
    ReadFault,
    /// The output failed.
    WriteFault,
    /// The disk of this number, or who keeps it, failed.
    DiskFault { disk: u8 },
    /// A file of the disk of this number is damaged at this place, in bytes from 0.
    Damaged { disk: u8, file: FileId, at: u64 },
    /// Memory ran out.
    Memory,
    /// This line of the input, from 1, is bad at this place, in bytes from 0; line 0, at the limit, is an input over it.
    BadInput { line: u32, at: u64 },
    /// All lines of the input are good, and this one, from 1, is the first of a form that isn't built.
    NotYet { line: u32 },
}

impl Status {
    /// The exit status of the process.
    pub fn code(&self) -> u8
        ensures { result ≡ exit_code self.now }
    {
        match self {
            Status::Done => 0,
            Status::Usage => 2,
            Status::ReadFault => 3,
            Status::WriteFault => 4,
            Status::DiskFault { .. } => 5,
            Status::Damaged { .. } => 6,
            Status::Memory => 7,
            Status::BadInput { .. } => 8,
            Status::NotYet { .. } => 10,
        }
    }

    /// The line on standard error; empty where there is none.
    pub fn text(&self, alloc: Global) -> Result<String, AllocError>
        ensures { IfOk result (λ text. string_bytes text ≡ exit_text self.now) }
    {
        match self {
            Status::Done => Ok(String::new(alloc)),
            Status::Usage => String::from_str(alloc, "gitstore: usage\n"),
            Status::ReadFault => String::from_str(alloc, "gitstore: read fault\n"),
            Status::WriteFault => String::from_str(alloc, "gitstore: write fault\n"),
            Status::DiskFault { disk } => format!(in alloc; "gitstore: disk {disk} fault\n"),
            Status::Damaged { disk, file, at } => {
                let kind = file.kind;
                let number = file.number;
                format!(in alloc; "gitstore: damaged {disk} {kind}-{number} {at}\n")
            }
            Status::Memory => String::from_str(alloc, "gitstore: memory\n"),
            Status::BadInput { line, at } => format!(in alloc; "gitstore: bad input {line} {at}\n"),
            Status::NotYet { line } => format!(in alloc; "gitstore: not yet {line}\n"),
        }
    }
}
