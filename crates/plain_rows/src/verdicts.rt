//! What a commit of the stage comes to.
use crate::bench::Bench;
use crate::shown::put_updates;
use gt_model::{Look, RefUpdates, Refusal};
use gt_name::{Names, RepoPath};
use gt_plain::PlainContent;
use gt_stage::Stage;
use row_words::{path_of, put, put_names, put_refusal};
use std::alloc::{AllocError, Global};

/// `table PATH` and `quick PATH`, the verdict over the table and over the plain model, or `slow PATH`, the plain verdict.
pub(crate) fn row(
    out: &mut Vec<u8>,
    alloc: Global,
    bench: &Bench,
    words: &str,
) -> Result<(), AllocError> {
    let Some((place, word)) = words.split_once(' ') else {
        return put(out, b"bad row");
    };
    match path_of(alloc, word) {
        Some(path) => verdict_by(out, alloc, bench, place, &path),
        None => put(out, b"bad row"),
    }
}

fn verdict_by(
    out: &mut Vec<u8>,
    alloc: Global,
    bench: &Bench,
    place: &str,
    path: &RepoPath,
) -> Result<(), AllocError> {
    match place {
        "table" => quick(out, alloc, &bench.table, path, &bench.stage),
        "quick" => quick(out, alloc, &bench.content, path, &bench.stage),
        _ => slow(out, alloc, &bench.content, path, &bench.stage),
    }
}

fn quick<L: Look>(
    out: &mut Vec<u8>,
    alloc: Global,
    look: &L,
    path: &RepoPath,
    stage: &Stage,
) -> Result<(), AllocError> {
    match gt_verify::verdict(alloc, look, path, stage) {
        Ok(ready) => put_ready(out, &ready.refs, &ready.needed, &ready.added),
        Err(error) => put_refusal(out, alloc, Refusal::from(error)),
    }
}

fn slow(
    out: &mut Vec<u8>,
    alloc: Global,
    content: &PlainContent,
    path: &RepoPath,
    stage: &Stage,
) -> Result<(), AllocError> {
    let (Ok(refs), Ok(records)) = (stage.refs(alloc), stage.records(alloc)) else {
        return put(out, b"memory");
    };
    match gt_plain::verdict(alloc, content, path, &refs, &records) {
        Ok(Ok(ready)) => put_ready(out, &ready.refs, &ready.needed, &ready.added),
        Ok(Err(refusal)) => put_refusal(out, alloc, refusal),
        Err(_) => put(out, b"memory"),
    }
}

/// Updates and checks, the names that are needed, and those that are added.
fn put_ready(
    out: &mut Vec<u8>,
    refs: &RefUpdates,
    needed: &Names,
    added: &Names,
) -> Result<(), AllocError> {
    put(out, b"good refs")?;
    put_updates(out, refs)?;
    put(out, b"needed")?;
    put_names(out, needed)?;
    put(out, b"added")?;
    put_names(out, added)
}
