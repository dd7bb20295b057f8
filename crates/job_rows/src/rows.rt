//! The rows that change something, and print nothing where all is well.
use crate::asking::ask;
use crate::bench::Bench;
use gt_model::Entry;
use row_words::{change_of, number, path_of, put};
use std::alloc::{AllocError, Global};
use std::mem;

/// A row: `# WORDS`, which is printed as it is, or
///
/// - `new`: all begins anew;
/// - `pending PART`: an update, a name or a record for the next entry;
/// - `entry KIND POSITION PATH [WORD]`: the entry in hand;
/// - `add plain` or `add batch`: it is applied to the content, or put behind the batch;
/// - a question (`asking`).
pub(crate) fn row(
    out: &mut Vec<u8>,
    alloc: Global,
    bench: &mut Bench,
    line: &str,
) -> Result<(), AllocError> {
    let (first, words) = line.split_once(' ').unwrap_or((line, ""));
    match first {
        "#" => put(out, line.as_bytes()),
        "new" => begin(alloc, bench),
        "pending" => done(out, bench.pending.take(alloc, words).is_some()),
        "entry" => done(out, take_entry(alloc, bench, words).is_some()),
        "add" => add(out, alloc, bench, words),
        _ => ask(out, alloc, bench, first, words),
    }
}

fn done(out: &mut Vec<u8>, is_done: bool) -> Result<(), AllocError> {
    if is_done {
        Ok(())
    } else {
        put(out, b"bad row")
    }
}

fn begin(alloc: Global, bench: &mut Bench) -> Result<(), AllocError> {
    let mut anew = Bench::new(alloc);
    mem::swap(bench, &mut anew);
    Ok(())
}

fn take_entry(alloc: Global, bench: &mut Bench, words: &str) -> Option<()> {
    let (kind, words) = words.split_once(' ')?;
    let (position, words) = words.split_once(' ')?;
    let (path, word) = words.split_once(' ').unwrap_or((words, ""));
    let position = number(position)?;
    let path = path_of(alloc, path)?;
    let change = change_of(alloc, kind, word, &mut bench.pending)?;
    bench.entry = Some(Entry {
        position,
        path,
        change,
    });
    Some(())
}

fn add(out: &mut Vec<u8>, alloc: Global, bench: &mut Bench, place: &str) -> Result<(), AllocError> {
    let Some(entry) = bench.entry.take() else {
        return put(out, b"no entry");
    };
    match place {
        "plain" => apply(out, alloc, bench, &entry),
        "batch" => done(out, bench.batch.push(entry).is_ok()),
        _ => put(out, b"no such place"),
    }
}

fn apply(
    out: &mut Vec<u8>,
    alloc: Global,
    bench: &mut Bench,
    entry: &Entry,
) -> Result<(), AllocError> {
    if !bench.content.fits(entry) {
        return put(out, b"unfit");
    }
    match bench.content.apply(alloc, entry) {
        Ok(()) => Ok(()),
        Err(_) => put(out, b"memory"),
    }
}
