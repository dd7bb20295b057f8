//! What stands in a job's way.
use crate::asking::bad_row;
use crate::bench::Bench;
use crate::jobs::job_of;
use gt_list::NoMemory;
use gt_name::RepoPath;
use gt_plain::PlainContent;
use gt_plain_jobs::{is_kin, job_conflict};
use row_words::{names_of, path_of, put, put_is, put_refusal};
use std::alloc::Global;

/// `JOB [NAME ..]`, with the batch behind the job's position and the names that it drops.
pub(crate) fn conflict(
    out: &mut Vec<u8>,
    alloc: Global,
    bench: &Bench,
    path: &RepoPath,
    words: &str,
) -> Result<(), NoMemory> {
    let (job, words) = words.split_once(' ').unwrap_or((words, ""));
    let (Some(job), Some(dropped)) = (job_of(job), names_of(alloc, words)) else {
        return bad_row(out);
    };
    let (dropped, batch) = (dropped.as_slice(), bench.batch.as_slice());
    match job_conflict(&bench.content, path, job, dropped, batch) {
        Some(refusal) => put_refusal(out, alloc, refusal)?,
        None => put(out, b"none")?,
    }
    Ok(())
}

/// `PATH`: whether it is of the first one's family.
pub(crate) fn family(
    out: &mut Vec<u8>,
    alloc: Global,
    content: &PlainContent,
    path: &RepoPath,
    word: &str,
) -> Result<(), NoMemory> {
    match path_of(alloc, word) {
        Some(other) => put_is(out, is_kin(content, path, &other))?,
        None => put(out, b"bad row")?,
    }
    Ok(())
}
