//! An entry of a log that is dropped. No script does that.
use crate::words::number;
use gt_disk::MemDisk;
use gt_log::Log;
use std::alloc::Global;
use std::io;

/// Opens the log of a disk, and prints its length and what it reads of an entry, before it is dropped and after.
pub(crate) fn print_log(
    rt: &impl Print,
    alloc: Global,
    disk: &mut MemDisk,
    word: &str,
) -> io::Result<()> {
    let Ok(log) = Log::mount(disk) else {
        return println!(rt; "no log");
    };
    print_entry(rt, alloc, disk, &log, number(word))?;
    drop_entry(rt, alloc, disk, log, number(word))
}

fn print_entry(
    rt: &impl Print,
    alloc: Global,
    disk: &mut MemDisk,
    log: &Log,
    entry: u64,
) -> io::Result<()> {
    let read = log.read(alloc, disk, entry);
    println!(rt; "{} {:?}", log.len(), read)
}

fn drop_entry(
    rt: &impl Print,
    alloc: Global,
    disk: &mut MemDisk,
    mut log: Log,
    entry: u64,
) -> io::Result<()> {
    println!(rt; "{:?}", log.drop_entry(disk, entry))?;
    print_entry(rt, alloc, disk, &log, entry)
}
