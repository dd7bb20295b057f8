//! Does rows of calls to a folder as a disk, and prints what comes of each.
#![tactic(auto)]

mod hosts;
mod rows;
mod threads;

use gt_real::FolderDisk;
use std::io;
use std::sync::Wait;
use std::thread::Threads;

/// The folder stands in the one that the program runs in.
pub(crate) const FOLDER: &str = "disk";

fn main(rt: HostRuntime) -> io::Result<()> {
    let folder = String::from_str(rt.alloc(), FOLDER)?;
    match FolderDisk::open(rt.clone()?, folder) {
        Ok(mut disk) => over(&rt, &rt, &mut disk),
        Err(_) => println!(rt; "not opened"),
    }
}

fn over<T: Threads + Wait + Sync>(
    rt: &HostRuntime,
    threads: &T,
    disk: &mut FolderDisk<HostRuntime>,
) -> io::Result<()> {
    for line in rt.lines(rt.alloc()) {
        rows::row(rt, threads, disk, line?.as_str())?;
    }
    Ok(())
}
