//! Packs: read, and written to a disk in memory.
use crate::digits::Digits;
use gt_disk::{Disk, DiskError, Fault, FileId, MemDisk, Stop, read_whole};
use gt_list::ListOf;
use gt_name::Name;
use gt_object::Record;
use gt_pack::{PackBuilder, PackIndex};
use std::alloc::Global;
use std::io;

pub(crate) fn pack_row(rt: &impl Print, alloc: Global, bytes: &[u8]) -> io::Result<()> {
    match PackIndex::of_bytes(alloc, bytes) {
        Ok(index) => index_lines(rt, &index),
        Err(error) => println!(rt; "{error:?}"),
    }
}

/// Each record with its place and length, and what is found by its name; then what is found of the least and the greatest name.
fn index_lines(rt: &impl Print, index: &PackIndex) -> io::Result<()> {
    println!(rt;
        "pack {:?} {:?}",
        index.find(&Name::ZERO),
        index.find(&Name([255; 20]))
    )?;
    for i in 0..u32::MAX {
        match index.item(i) {
            Some((name, place, len)) => {
                let found = index.find(&name);
                println!(rt; "  {} {place} {len} {found:?}", Digits(&name.0))?;
            }
            None => return Ok(()),
        }
    }
    Ok(())
}

const FILE: FileId = FileId { kind: 5, number: 9 };

/// A call that is to fail, and records in hex: how a pack of the records is written, how often the disk failed, and the file
/// that is there when it was written once more.
pub(crate) fn build_row(rt: &impl Print, alloc: Global, words: &str) -> io::Result<()> {
    let (call, digits) = words.split_once(' ').unwrap_or((words, ""));
    let call = call.parse::<u64>().unwrap_or(u64::MAX);
    match (records_of(alloc, digits), failing(alloc, call)) {
        (Some(records), Some(disk)) => build_lines(rt, alloc, records.as_slice(), disk),
        _ => println!(rt; "no records"),
    }
}

fn records_of(alloc: Global, words: &str) -> Option<ListOf<Record>> {
    let mut records = ListOf::new(alloc);
    for digits in words.split_terminator(' ') {
        let whole = hex::decode(alloc, digits).ok()?;
        records.push(Record::parse(alloc, &whole).ok()?).ok()?;
    }
    Some(records)
}

/// A disk whose call of this number fails, with five bytes left of what is written.
fn failing(alloc: Global, call: u64) -> Option<MemDisk> {
    let mut disk = MemDisk::new(alloc).ok()?;
    disk.fail(&[Fault { call, kept: 5 }]).ok()?;
    Some(disk)
}

fn build_lines(
    rt: &impl Print,
    alloc: Global,
    records: &[Record],
    mut disk: MemDisk,
) -> io::Result<()> {
    let first = written(alloc, &mut disk, records);
    let again = written(alloc, &mut disk, records);
    println!(rt; "{first:?} {} {again:?}", disk.faults())?;
    stops_lines(rt, alloc, &mut disk)
}

/// What is found of each record in the pack that is written of them, and of a name that isn't there.
fn written(
    alloc: Global,
    disk: &mut MemDisk,
    records: &[Record],
) -> Result<Option<(u64, u32)>, DiskError> {
    let count = u32::try_from(records.len()).unwrap_or(u32::MAX);
    let mut builder = PackBuilder::begin(alloc, disk, FILE.number, count)?;
    for record in records {
        add(alloc, disk, &mut builder, record)?;
    }
    if builder.is_full() {
        builder.end(alloc, disk)?;
    }
    Ok(records.last().and_then(|last| builder.find(&last.name())))
}

fn add(
    alloc: Global,
    disk: &mut MemDisk,
    builder: &mut PackBuilder,
    record: &Record,
) -> Result<(), DiskError> {
    let name = record.name();
    if builder.takes(&name) {
        builder.add(alloc, disk, name, record.bytes())?;
    }
    Ok(())
}

/// The file as it reads, and as each of the three stops leaves it.
fn stops_lines(rt: &impl Print, alloc: Global, disk: &mut MemDisk) -> io::Result<()> {
    file_line(rt, alloc, disk)?;
    for choice in [Stop::Least, Stop::Most, Stop::Junk] {
        match disk.stopped(alloc, disk.tick(), choice) {
            Ok(mut left) => file_line(rt, alloc, &mut left)?,
            Err(error) => println!(rt; "{error:?}")?,
        }
    }
    Ok(())
}

fn file_line(rt: &impl Print, alloc: Global, disk: &mut MemDisk) -> io::Result<()> {
    match read_whole(alloc, disk, FILE) {
        Ok(Some(bytes)) => println!(rt; "  {}", Digits(&bytes)),
        Ok(None) => println!(rt; "  absent"),
        Err(error) => println!(rt; "  {error:?}"),
    }
}
