//! Rows on inputs, outputs and hosts alone, of which calls fail by a list, as `1,2`, or none, as `-`.
ghost use Rattle.std.specs.Prelude.{◌≡◌, false};

use crate::words::{bytes_of, number, numbers};
use gt_disk::{Disk, FileId, MemDisk};
use gt_outside::{
    Host, MemHost, MemSink, MemSource, Sink, Source, SteadySink, SteadySource, read_whole,
    write_whole,
};
use gt_play::host_of;
use std::alloc::Global;
use std::io;

pub(crate) fn take_row(rt: &impl Print, alloc: Global, row: &str) -> io::Result<()> {
    let (step, words) = row.split_once(' ').unwrap_or((row, ""));
    let (first, rest) = words.split_once(' ').unwrap_or((words, ""));
    let done = match step {
        "read" => read(rt, alloc, number(first), rest),
        "pieces" => read_pieces(rt, alloc, first, rest),
        "write" => write(rt, alloc, first, rest),
        _ => take_disks(rt, alloc, first),
    };
    match done {
        Some(done) => done,
        None => println!(rt; "not done: {row}"),
    }
}

/// The numbers of the calls that fail.
fn faults_of(alloc: Global, word: &str) -> Option<Vec<u64>> {
    if word == "-" {
        return Some(Vec::new(alloc));
    }
    numbers(alloc, word, ',')
}

/// Reads an input whole up to a limit, from each source in memory, and then what is left.
fn read(rt: &impl Print, alloc: Global, limit: u64, digits: &str) -> Option<io::Result<()>> {
    let bytes = bytes_of(alloc, digits)?;
    let mut source = MemSource::new(alloc, &bytes, &[]).ok()?;
    let mut steady = SteadySource::new(alloc, &bytes).ok()?;
    let limit = usize::try_from(limit).unwrap_or(usize::MAX);
    if let Err(error) = read_twice(rt, alloc, &mut source, limit) {
        return Some(Err(error));
    }
    Some(read_twice(rt, alloc, &mut steady, limit))
}

fn read_twice<S: Source>(
    rt: &impl Print,
    alloc: Global,
    source: &mut S,
    limit: usize,
) -> io::Result<()> {
    print_whole(rt, alloc, source, limit)?;
    print_whole(rt, alloc, source, usize::MAX)
}

fn print_whole<S: Source>(
    rt: &impl Print,
    alloc: Global,
    source: &mut S,
    limit: usize,
) -> io::Result<()> {
    match read_whole(alloc, source, limit) {
        Ok(bytes) => println!(rt; "Ok {}", hex::encode(alloc, bytes.as_slice())?),
        Err(error) => println!(rt; "{error:?}"),
    }
}

/// Reads the bytes behind a blank in pieces of these lengths.
fn read_pieces(
    rt: &impl Print,
    alloc: Global,
    faults: &str,
    words: &str,
) -> Option<io::Result<()>> {
    let (digits, lens) = words.split_once(' ')?;
    let bytes = bytes_of(alloc, digits)?;
    let faults = faults_of(alloc, faults)?;
    let mut source = MemSource::new(alloc, &bytes, &faults).ok()?;
    for len in lens.split(' ') {
        if let Err(error) = print_piece(rt, alloc, &mut source, number(len)) {
            return Some(Err(error));
        }
    }
    Some(Ok(()))
}

fn print_piece<S: Source>(
    rt: &impl Print,
    alloc: Global,
    source: &mut S,
    len: u64,
) -> io::Result<()> {
    let mut piece = vec![in alloc; 0u8; len as usize]?;
    let answer = source.read(&mut piece);
    println!(rt; "{answer:?} {piece:?}")
}

/// Writes pieces to each sink in memory, and prints what they hold.
fn write(rt: &impl Print, alloc: Global, faults: &str, pieces: &str) -> Option<io::Result<()>> {
    let faults = faults_of(alloc, faults)?;
    let mut sink = MemSink::new(alloc, &faults).ok()?;
    let mut steady = SteadySink::new(alloc).ok()?;
    for digits in pieces.split(' ') {
        let piece = bytes_of(alloc, digits)?;
        let (one, other) = (
            write_whole(&mut sink, &piece),
            write_whole(&mut steady, &piece),
        );
        if let Err(error) = println!(rt; "{one:?} {other:?}") {
            return Some(Err(error));
        }
    }
    Some(println!(rt; "{:?} {:?}", sink.bytes(), steady.bytes()))
}

/// Takes disks of a host of nine whose second call fails, and prints whether there is a tenth, whether the ninth was taken and
/// given back, and the clocks of the last two.
fn take_disks(rt: &impl Print, alloc: Global, faults: &str) -> Option<io::Result<()>> {
    let faults = faults_of(alloc, faults)?;
    let mut host = host_of(alloc, MemDisk::new(alloc).ok()?, &faults)?;
    let has_tenth = host.take(9).is_ok();
    if host.take(8).is_ok() {
        return Some(println!(rt; "no fault"));
    }
    let is_taken = take_and_give(&mut host);
    let (one, other) = (clock_of(&host, 7), clock_of(&host, 8));
    Some(println!(rt; "{has_tenth} {is_taken} {one:?} {other:?}"))
}

/// Whether the ninth disk was taken, and was out until it was given back.
fn take_and_give(host: &mut MemHost) -> bool
    requires { ⟦<MemHost as Host>⟧.is_out host.old 8 ≡ false }
{
    match host.take(8) {
        Ok(mut disk) => {
            let is_out = host.disk(8).is_none() && host.disk(0).is_some();
            let file = FileId { kind: 3, number: 7 };
            let is_written = disk.write(file, b"x").is_ok();
            host.give(8, disk);
            is_out && is_written && host.disk(9).is_none()
        }
        Err(_) => false,
    }
}

fn clock_of(host: &MemHost, number: u8) -> Option<u64> {
    Some(host.disk(number)?.tick())
}
