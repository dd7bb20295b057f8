//! What an application of the batch's entries comes to: `next NUMBER`, the next free number of a file where they are what is
//! read over this one; `files NUMBER`, each new file, from this number on, and how many there are; `repos PATH`, the
//! repositories that stand there, each as the positions of its entries.
use crate::asking::bad_row;
use gt_list::NoMemory;
use gt_model::{Entry, EntryList};
use gt_plain_jobs::{PlainFile, Text, files_at, new_files, next_past, paths_of, repos_at};
use row_words::{number, put, put_number};
use std::alloc::Global;

pub(crate) fn row(
    out: &mut Vec<u8>,
    alloc: Global,
    batch: &[Entry],
    words: &str,
) -> Result<(), NoMemory> {
    match words.split_once(' ') {
        Some(("next", word)) => next(out, batch, number(word).unwrap_or(0)),
        Some(("files", word)) => files(out, alloc, batch, number(word).unwrap_or(0)),
        Some(("repos", word)) => repos(out, alloc, batch, word),
        _ => bad_row(out),
    }
}

fn next(out: &mut Vec<u8>, batch: &[Entry], number: u64) -> Result<(), NoMemory> {
    match u64::try_from(next_past(number, batch)) {
        Ok(next) => put_number(out, next)?,
        Err(_) => put(out, b"18446744073709551616")?,
    }
    Ok(())
}

fn files(out: &mut Vec<u8>, alloc: Global, batch: &[Entry], first: u64) -> Result<(), NoMemory> {
    let paths = paths_of(alloc, batch)?;
    files_of(out, alloc, batch, &paths, first)?;
    put_number(out, new_files(alloc, batch)? as u64)?;
    Ok(())
}

fn files_of(
    out: &mut Vec<u8>,
    alloc: Global,
    batch: &[Entry],
    paths: &[Text],
    first: u64,
) -> Result<(), NoMemory> {
    let mut next = first;
    for path in paths {
        put(out, path.bytes())?;
        let files = files_at(alloc, path, batch)?;
        next = put_files(out, &files, next)?;
    }
    Ok(())
}

/// The number behind that of the last file.
fn put_files(out: &mut Vec<u8>, files: &[PlainFile], first: u64) -> Result<u64, NoMemory> {
    let mut next = first;
    for file in files {
        put_number(out, next)?;
        match file {
            PlainFile::Pack => put(out, b"pack")?,
            PlainFile::Loose(name) => put(out, name.bytes())?,
        }
        next = next.saturating_add(1);
    }
    Ok(next)
}

fn repos(out: &mut Vec<u8>, alloc: Global, batch: &[Entry], word: &str) -> Result<(), NoMemory> {
    let path = Text::of(alloc, word.as_bytes())?;
    let repos = repos_at(alloc, &path, batch)?;
    put_repos(out, &repos)
}

fn put_repos(out: &mut Vec<u8>, repos: &[EntryList]) -> Result<(), NoMemory> {
    put_number(out, repos.len() as u64)?;
    for entries in repos {
        put(out, b"entries")?;
        for entry in entries.as_slice() {
            put_number(out, entry.position)?;
        }
    }
    Ok(())
}
