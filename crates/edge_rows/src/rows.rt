//! Which call a row is. Each has a small function, since a long one is dear to prove.
use crate::{FOLDER, hosts, threads};
use gt_disk::{Disk, FileId};
use gt_real::FolderDisk;
use std::sync::Wait;
use std::thread::Threads;
use std::{fs, io};

pub(crate) fn row<T: Threads + Wait + Sync>(
    rt: &HostRuntime,
    threads: &T,
    disk: &mut FolderDisk<HostRuntime>,
    row: &str,
) -> io::Result<()> {
    match row.split_once(' ') {
        Some(("list", file)) => println!(rt; "{:?}", disk.list(Some(file_of(file)))),
        Some(("stray", name)) => stray_row(rt, name),
        Some(("threads", folder)) => threads::threads_row(rt, threads, folder),
        Some(("take", number)) => hosts::take_row(rt, number_of(number)),
        Some((call, words)) => file_row(rt, disk, call, words),
        None => bare_row(rt, disk, row),
    }
}

fn bare_row(rt: &HostRuntime, disk: &mut impl Disk, row: &str) -> io::Result<()> {
    match row {
        "list" => println!(rt; "{:?}", disk.list(None)),
        "faults" => println!(rt; "{}", disk.faults()),
        "gone" => fs::remove_dir_all(rt, FOLDER),
        "open" => open_row(rt),
        _ => println!(rt; "no such row"),
    }
}

/// Opens the folder a second time.
fn open_row(rt: &HostRuntime) -> io::Result<()> {
    let folder = String::from_str(rt.alloc(), FOLDER)?;
    let is_open = FolderDisk::open(rt.clone()?, folder).is_ok();
    println!(rt; "{is_open}")
}

/// A file in the folder that no file of a disk is named like.
fn stray_row(rt: &HostRuntime, name: &str) -> io::Result<()> {
    fs::write(rt, format!(in rt.alloc(); "{FOLDER}/{name}")?, "x")
}

fn file_row(rt: &HostRuntime, disk: &mut impl Disk, call: &str, words: &str) -> io::Result<()> {
    match words.split_once(' ') {
        Some((file, rest)) => bytes_row(rt, disk, call, file_of(file), rest),
        None => whole_row(rt, disk, call, file_of(words)),
    }
}

fn whole_row(rt: &HostRuntime, disk: &mut impl Disk, call: &str, file: FileId) -> io::Result<()> {
    match call {
        "len" => println!(rt; "{:?}", disk.len(file)),
        "sync" => println!(rt; "{:?}", disk.sync(file)),
        "remove" => println!(rt; "{:?}", disk.remove(file)),
        _ => println!(rt; "no such row"),
    }
}

fn bytes_row(
    rt: &HostRuntime,
    disk: &mut impl Disk,
    call: &str,
    file: FileId,
    rest: &str,
) -> io::Result<()> {
    match call {
        "write" => println!(rt; "{:?}", disk.write(file, bytes_of(rest))),
        "append" => println!(rt; "{:?}", disk.append(file, bytes_of(rest))),
        "read" => read_row(rt, disk, file, number_of(rest)),
        _ => println!(rt; "no such row"),
    }
}

/// Four bytes from a place on.
fn read_row(rt: &HostRuntime, disk: &mut impl Disk, file: FileId, at: u64) -> io::Result<()> {
    let mut into = [b'.'; 4];
    let answer = disk.read_at(file, at, &mut into);
    println!(rt; "{answer:?} {into:?}")
}

/// The bytes of a word; `-` is none.
fn bytes_of(word: &str) -> &[u8] {
    word.trim_start_matches('-').as_bytes()
}

pub(crate) fn number_of(word: &str) -> u64 {
    word.parse::<u64>().unwrap_or(u64::MAX)
}

fn file_of(word: &str) -> FileId {
    let (kind, number) = word.split_once('-').unwrap_or((word, ""));
    FileId {
        kind: kind.parse::<u8>().unwrap_or(u8::MAX),
        number: number_of(number),
    }
}
