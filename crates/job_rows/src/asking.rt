//! Questions: `job` and `batch`.
use crate::bench::Bench;
use crate::{batches, conflicts, jobs, tags};
use gt_list::NoMemory;
use gt_name::RepoPath;
use row_words::{path_of, put};
use std::alloc::{AllocError, Global};

pub(crate) fn ask(
    out: &mut Vec<u8>,
    alloc: Global,
    bench: &Bench,
    first: &str,
    words: &str,
) -> Result<(), AllocError> {
    let answered = match first {
        "job" => job(out, alloc, bench, words),
        "batch" => batches::row(out, alloc, bench.batch.as_slice(), words),
        _ => bad_row(out),
    };
    match answered {
        Ok(()) => Ok(()),
        Err(_) => put(out, b"memory"),
    }
}

pub(crate) fn bad_row(out: &mut Vec<u8>) -> Result<(), NoMemory> {
    put(out, b"bad row")?;
    Ok(())
}

/// `QUESTION PATH [WORDS]`.
fn job(out: &mut Vec<u8>, alloc: Global, bench: &Bench, words: &str) -> Result<(), NoMemory> {
    let Some((question, words)) = words.split_once(' ') else {
        return bad_row(out);
    };
    let (path, words) = words.split_once(' ').unwrap_or((words, ""));
    match path_of(alloc, path) {
        Some(path) => job_at(out, alloc, bench, question, &path, words),
        None => bad_row(out),
    }
}

fn job_at(
    out: &mut Vec<u8>,
    alloc: Global,
    bench: &Bench,
    question: &str,
    path: &RepoPath,
    words: &str,
) -> Result<(), NoMemory> {
    match question {
        "conflict" => conflicts::conflict(out, alloc, bench, path, words),
        "family" => conflicts::family(out, alloc, &bench.content, path, words),
        "peel" | "peeled" | "tags" => {
            tags::row(out, alloc, &bench.content, question, path, words)
        }
        _ => jobs::row(out, alloc, &bench.content, question, path, words),
    }
}
