ghost use Rattle.std.specs.Prelude.{◌≡◌, ◌++◌, IfOk, codes, decimal, string_bytes};

use std::alloc::Global;
use std::io;

/// What a host of folders knows of a disk: whether it is out, and its counts of faults and of changes when it was here last.
#[derive(Clone, Copy)]
pub(crate) struct DiskSlot {
    pub(crate) is_out: bool,
    pub(crate) faults: u64,
    pub(crate) changes: u64,
}

/// The number of disks of a store, which are 0 to 8.
pub(crate) const DISKS: usize = 9;

/// Every disk is here, and had no fault and no change.
pub(crate) const ALL_HERE: [DiskSlot; DISKS] = [DiskSlot {
    is_out: false,
    faults: 0,
    changes: 0,
}; DISKS];

/// The folder of the disk of this number in this folder. Different disks have different folders.
pub(crate) fn folder_of(alloc: Global, folder: &str, number: u8) -> io::Result<String>
    ensures { IfOk result (λ path. string_bytes path ≡ folder.now ++ (codes "/" ++ decimal number)) }
{
    Ok(format!(in alloc; "{folder}/{number}")?)
}
