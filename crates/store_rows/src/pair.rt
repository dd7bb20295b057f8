//! Rows on disks alone: each is done to a disk in memory and to one that never fails, and its answers are printed.
use crate::files::left_at_end;
use crate::words::{bytes_of, choice_of, faults_of, file_of, number};
use gt_disk::{Disk, FileId, MemDisk, SteadyDisk, Stop, append_synced, read_whole, write_synced};
use std::alloc::Global;
use std::io;

/// The two disks.
#[derive(Drop)]
pub(crate) struct Pair {
    mem: MemDisk,
    steady: SteadyDisk,
}

impl Pair {
    pub(crate) fn new(alloc: Global) -> Option<Pair> {
        Some(Pair {
            mem: MemDisk::new(alloc).ok()?,
            steady: SteadyDisk::new(alloc).ok()?,
        })
    }

    pub(crate) fn take_row(&mut self, rt: &impl Print, alloc: Global, row: &str) -> io::Result<()> {
        let (step, words) = row.split_once(' ').unwrap_or((row, ""));
        match self.change(alloc, step, words) {
            Some(()) => Ok(()),
            None => {
                take_step(rt, alloc, &mut self.mem, step, words)?;
                take_step(rt, alloc, &mut self.steady, step, words)
            }
        }
    }

    /// Makes two new disks, has calls of the first fail, or stops both at their last moment. None for any other step.
    fn change(&mut self, alloc: Global, step: &str, words: &str) -> Option<()> {
        match step {
            "new" => *self = Pair::new(alloc)?,
            "fail" => self.mem.fail(&faults_of(alloc, words)?).ok()?,
            "stop" => self.stop(alloc, choice_of(words))?,
            _ => return None,
        }
        Some(())
    }

    fn stop(&mut self, alloc: Global, choice: Stop) -> Option<()> {
        self.mem = left_at_end(alloc, &self.mem, choice)?;
        self.steady = self.steady.stopped(alloc, self.steady.tick(), choice).ok()?;
        Some(())
    }
}

fn take_step<D: Disk>(
    rt: &impl Print,
    alloc: Global,
    disk: &mut D,
    step: &str,
    words: &str,
) -> io::Result<()> {
    let (name, rest) = words.split_once(' ').unwrap_or((words, ""));
    let file = file_of(name);
    match step {
        "len" => println!(rt; "{:?}", disk.len(file)),
        "sync" => println!(rt; "{:?}", disk.sync(file)),
        "remove" => println!(rt; "{:?}", disk.remove(file)),
        "whole" => println!(rt; "{:?}", read_whole(alloc, disk, file)),
        "first" => println!(rt; "{:?}", disk.list(None)),
        "next" => println!(rt; "{:?}", disk.list(Some(file))),
        "clocks" => println!(rt; "{} {}", disk.tick(), disk.faults()),
        "read" => print_read(rt, alloc, disk, file, rest),
        _ => print_change(rt, alloc, disk, step, file, rest),
    }
}

/// Prints how much is read from a place on into a buffer of zeros, and the buffer.
fn print_read<D: Disk>(
    rt: &impl Print,
    alloc: Global,
    disk: &mut D,
    file: FileId,
    words: &str,
) -> io::Result<()> {
    let (at, len) = words.split_once(' ').unwrap_or((words, ""));
    let mut buffer = vec![in alloc; 0u8; number(len) as usize]?;
    let answer = disk.read_at(file, number(at), &mut buffer);
    println!(rt; "{:?} {:?}", answer, buffer)
}

fn print_change<D: Disk>(
    rt: &impl Print,
    alloc: Global,
    disk: &mut D,
    step: &str,
    file: FileId,
    digits: &str,
) -> io::Result<()> {
    let Some(bytes) = bytes_of(alloc, digits) else {
        return println!(rt; "no bytes {digits}");
    };
    let answer = match step {
        "write" => disk.write(file, &bytes),
        "append" => disk.append(file, &bytes),
        "write_synced" => write_synced(disk, file, &bytes),
        _ => append_synced(disk, file, &bytes),
    };
    println!(rt; "{answer:?}")
}
