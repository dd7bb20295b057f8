//! Records, and what they need.
use crate::digits::Digits;
use gt_name::Name;
use gt_object::{Kind, ObjectError, Record};
use std::alloc::Global;
use std::io;

pub(crate) fn whole_row(rt: &impl Print, alloc: Global, whole: &[u8]) -> io::Result<()> {
    record_lines(rt, alloc, &Record::parse(alloc, whole))
}

pub(crate) fn content_row(
    rt: &impl Print,
    alloc: Global,
    kind: Kind,
    content: &[u8],
) -> io::Result<()> {
    record_lines(rt, alloc, &Record::new(alloc, kind, content))
}

fn record_lines(
    rt: &impl Print,
    alloc: Global,
    found: &Result<Record, ObjectError>,
) -> io::Result<()> {
    match found {
        Ok(record) => {
            record_line(rt, record)?;
            needs_lines(rt, alloc, record)
        }
        Err(error) => println!(rt; "{error:?}"),
    }
}

/// The kind, the name, and how many bytes the record and its content have.
fn record_line(rt: &impl Print, record: &Record) -> io::Result<()> {
    let name = record.name();
    let len = record.bytes().len();
    println!(rt;
        "{:?} {} {len} {}",
        record.kind(),
        Digits(&name.0),
        record.content().len()
    )
}

fn needs_lines(rt: &impl Print, alloc: Global, record: &Record) -> io::Result<()> {
    match record.deps(alloc) {
        Ok(names) => name_lines(rt, "needs", names.as_slice()),
        Err(error) => println!(rt; "{error:?}"),
    }
}

/// How long the record of a blob or a tree is whose content is this many zeros, and that content.
pub(crate) fn zeros_row(rt: &impl Print, alloc: Global, words: &str) -> io::Result<()> {
    let (word, count) = words.split_once(' ').unwrap_or((words, ""));
    let kind = if word == "tree" {
        Kind::Tree
    } else {
        Kind::Blob
    };
    let content = vec![in alloc; 0u8; count.parse::<usize>().unwrap_or(0)]?;
    match Record::new(alloc, kind, &content) {
        Ok(record) => println!(rt; "{} {}", record.bytes().len(), record.content().len()),
        Err(error) => println!(rt; "{error:?}"),
    }
}

/// A line for each name, with this word before it.
pub(crate) fn name_lines(rt: &impl Print, word: &str, names: &[Name]) -> io::Result<()> {
    for name in names {
        println!(rt; "  {word} {}", Digits(&name.0))?;
    }
    Ok(())
}
