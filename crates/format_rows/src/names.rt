//! Names of references, repositories and objects.
use crate::digits::{Digits, Text};
use gt_name::{Name, RefName, RepoPath};
use std::alloc::Global;
use std::collections::HashSet;
use std::io;

pub(crate) fn ref_row(rt: &impl Print, alloc: Global, text: &[u8]) -> io::Result<()> {
    match RefName::parse(alloc, text) {
        Ok(name) => println!(rt; "{}", Text(name.bytes())),
        Err(error) => println!(rt; "{error:?}"),
    }
}

pub(crate) fn path_row(rt: &impl Print, alloc: Global, text: &[u8]) -> io::Result<()> {
    match RepoPath::parse(alloc, text) {
        Ok(path) => println!(rt; "{}", Text(path.bytes())),
        Err(error) => println!(rt; "{error:?}"),
    }
}

/// The bytes that digits spell, and the digits that they are spelled by.
pub(crate) fn name_row(rt: &impl Print, text: &[u8]) -> io::Result<()> {
    match Name::parse(text) {
        Ok(name) => name_line(rt, name),
        Err(error) => println!(rt; "{error:?}"),
    }
}

fn name_line(rt: &impl Print, name: Name) -> io::Result<()> {
    let digits = name.text();
    println!(rt; "{} {}", Digits(&name.0), Text(&digits))
}

pub(crate) fn digest_row(rt: &impl Print, bytes: &[u8]) -> io::Result<()> {
    println!(rt; "{}", Text(&Name::of_record(bytes).text()))
}

/// How the first of two references, or else of two paths, stands to the second.
pub(crate) fn order_row(rt: &impl Print, alloc: Global, words: &str) -> io::Result<()> {
    let (left, right) = words.split_once(' ').unwrap_or((words, ""));
    match (ref_of(alloc, left), ref_of(alloc, right)) {
        (Some(left), Some(right)) => println!(rt; "{:?} {}", left.cmp(&right), left == right),
        _ => path_order_row(rt, alloc, left, right),
    }
}

fn path_order_row(rt: &impl Print, alloc: Global, left: &str, right: &str) -> io::Result<()> {
    match (path_of(alloc, left), path_of(alloc, right)) {
        (Some(left), Some(right)) => println!(rt; "{:?} {}", left.cmp(&right), left == right),
        _ => println!(rt; "no two names"),
    }
}

/// How many references or paths stand in a row, each counted once.
pub(crate) fn keys_row(rt: &impl Print, alloc: Global, words: &str) -> io::Result<()> {
    println!(rt; "{:?} {:?}", refs_of(alloc, words), paths_of(alloc, words))
}

fn refs_of(alloc: Global, words: &str) -> Option<usize> {
    let mut set = HashSet::new(alloc);
    for word in words.split(' ') {
        set.insert(ref_of(alloc, word)?).ok()?;
    }
    Some(set.len())
}

fn paths_of(alloc: Global, words: &str) -> Option<usize> {
    let mut set = HashSet::new(alloc);
    for word in words.split(' ') {
        set.insert(path_of(alloc, word)?).ok()?;
    }
    Some(set.len())
}

pub(crate) fn name_of(word: &str) -> Option<Name> {
    Name::parse(word.as_bytes()).ok()
}

pub(crate) fn ref_of(alloc: Global, word: &str) -> Option<RefName> {
    RefName::parse(alloc, word.as_bytes()).ok()
}

pub(crate) fn path_of(alloc: Global, word: &str) -> Option<RepoPath> {
    RepoPath::parse(alloc, word.as_bytes()).ok()
}
