//! What is done to the files of a disk beside scripts.
use crate::words::bytes_of;
use gt_disk::{Disk, FileId, MemDisk, Stop, read_whole};
use std::alloc::Global;
use std::io;

/// A file and its bytes.
#[derive(Debug, PartialEq, Eq, Drop)]
pub(crate) struct Whole {
    pub(crate) file: FileId,
    pub(crate) bytes: Vec<u8>,
}

/// All files of a disk, ascending. None where a call fails or memory runs out.
pub(crate) fn files_of(alloc: Global, disk: &mut MemDisk) -> Option<Vec<Whole>> {
    let mut files = Vec::new(alloc);
    let mut after = None;
    for _ in 0..u64::MAX {
        let Some(file) = disk.list(after).ok()? else {
            return Some(files);
        };
        let bytes = read_whole(alloc, disk, file).ok()??;
        files.push(Whole { file, bytes }).ok()?;
        after = Some(file);
    }
    None
}

/// What a stop at the last moment of a disk leaves.
pub(crate) fn left_at_end(alloc: Global, disk: &MemDisk, choice: Stop) -> Option<MemDisk> {
    disk.stopped(alloc, disk.tick(), choice).ok()
}

/// What a stop at a moment leaves. None past the clock.
pub(crate) fn left_at(alloc: Global, disk: &MemDisk, tick: &str, choice: Stop) -> Option<MemDisk> {
    if tick == "end" {
        return left_at_end(alloc, disk, choice);
    }
    let tick = tick.parse::<u64>().ok()?;
    if tick > disk.tick() {
        return None;
    }
    disk.stopped(alloc, tick, choice).ok()
}

/// Replaces a file by bytes in hex.
pub(crate) fn put(alloc: Global, disk: &mut MemDisk, file: FileId, digits: &str) -> Option<()> {
    disk.write(file, &bytes_of(alloc, digits)?).ok()
}

/// Prints all files of a disk, as a stop that loses nothing leaves it.
pub(crate) fn print_files(rt: &impl Print, alloc: Global, disk: &MemDisk) -> io::Result<()> {
    let Some(mut disk) = left_at_end(alloc, disk, Stop::Most) else {
        return println!(rt; "no memory");
    };
    let Some(files) = files_of(alloc, &mut disk) else {
        return println!(rt; "no memory");
    };
    for whole in &files {
        print_file(rt, alloc, whole)?;
    }
    Ok(())
}

fn print_file(rt: &impl Print, alloc: Global, whole: &Whole) -> io::Result<()> {
    let file = whole.file;
    let digits = hex::encode(alloc, whole.bytes.as_slice())?;
    println!(rt; "{}-{} {digits}", file.kind, file.number)
}
