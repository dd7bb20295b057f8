//! The rows that change something, and print nothing where all is well but what they are asked for.
use crate::asked::asked_of;
use crate::bench::Bench;
use crate::entries::{add, prepare};
use crate::numbered::many;
use crate::seeding::seed;
use crate::{looking, staging};
use gt_model::Entry;
use row_words::{change_of, number, put};
use std::alloc::{AllocError, Global};
use std::mem;

/// A row: `# WORDS`, which is printed as it is, or
///
/// - `new FLOOR`: all begins anew;
/// - `pending PART`: an update, a name or a record for the next write (`entries`);
/// - `entry KIND POSITION PATH [WORD]`: the entry in hand;
/// - `add WHERE` and `prepare WHERE`: it is added there, or only prepared;
/// - `many WHERE COUNT [PATH]`: numbered updates, records or entries (`numbered`);
/// - `seed PART`: something at the floor (`seeding`);
/// - `stage WORDS` (`staging`), or a question (`looking`).
pub(crate) fn row(
    out: &mut Vec<u8>,
    alloc: Global,
    bench: &mut Bench,
    line: &str,
) -> Result<(), AllocError> {
    let (first, words) = line.split_once(' ').unwrap_or((line, ""));
    match first {
        "#" => put(out, line.as_bytes()),
        "pending" => done(out, bench.pending.take(alloc, words).is_some()),
        "add" => put_unless_ok(out, add(alloc, bench, words)),
        "prepare" => put_unless_ok(out, prepare(alloc, bench, words)),
        "stage" => staging::row(out, alloc, &mut bench.stage, words),
        _ => setup_row(out, alloc, bench, first, words),
    }
}

fn setup_row(
    out: &mut Vec<u8>,
    alloc: Global,
    bench: &mut Bench,
    first: &str,
    words: &str,
) -> Result<(), AllocError> {
    match first {
        "new" => done(out, begin(alloc, bench, words).is_some()),
        "entry" => done(out, take_entry(alloc, bench, words).is_some()),
        "many" => put_unless_ok(out, many(alloc, bench, words)),
        "seed" => put_unless_ok(out, seed(alloc, bench, words)),
        _ => looking::row(out, alloc, bench, first, words),
    }
}

fn done(out: &mut Vec<u8>, is_done: bool) -> Result<(), AllocError> {
    put_unless_ok(out, if is_done { "ok" } else { "bad row" })
}

fn put_unless_ok(out: &mut Vec<u8>, word: &str) -> Result<(), AllocError> {
    if word == "ok" {
        Ok(())
    } else {
        put(out, word.as_bytes())
    }
}

fn begin(alloc: Global, bench: &mut Bench, floor: &str) -> Option<()> {
    let mut anew = Bench::new(alloc, number(floor)?)?;
    mem::swap(bench, &mut anew);
    Some(())
}

fn take_entry(alloc: Global, bench: &mut Bench, words: &str) -> Option<()> {
    let (kind, words) = words.split_once(' ')?;
    let asked = asked_of(alloc, words)?;
    let change = change_of(alloc, kind, asked.word, &mut bench.pending)?;
    bench.entry = Some(Entry {
        position: asked.at,
        path: asked.path,
        change,
    });
    Some(())
}
