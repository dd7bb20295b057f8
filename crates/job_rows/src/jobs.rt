//! What jobs come to over the plain content: `dropped PATH JOB` and `units PATH JOB`; `marked PATH PATH`, how many pairs a prune
//! of the first marks, and the names of those in the second, ascending; `kept PATH` and `brought PATH`; `left PATH [NAME ..]`,
//! without these.
use crate::asking::bad_row;
use gt_list::NoMemory;
use gt_model::Job;
use gt_name::{Name, RepoPath};
use gt_object::Record;
use gt_plain::{PlainContent, ascending};
use row_words::{names_of, path_of, put, put_name, put_names, put_number};
use std::alloc::Global;

pub(crate) fn job_of(word: &str) -> Option<Job> {
    match word {
        "repack" => Some(Job::Repack),
        "prune" => Some(Job::Prune),
        "packrefs" => Some(Job::PackRefs),
        "unlink" => Some(Job::Unlink),
        _ => None,
    }
}

pub(crate) fn row(
    out: &mut Vec<u8>,
    alloc: Global,
    content: &PlainContent,
    question: &str,
    path: &RepoPath,
    words: &str,
) -> Result<(), NoMemory> {
    match question {
        "dropped" | "units" => job_row(out, alloc, content, question, path, words),
        "marked" => marked(out, alloc, content, path, words),
        "kept" => put_count(out, gt_plain_jobs::kept_count(alloc, content, path)?),
        "brought" => put_objects(out, &gt_plain_jobs::brought_objects(alloc, content, path)?),
        "left" => left(out, alloc, content, path, words),
        _ => bad_row(out),
    }
}

fn put_count(out: &mut Vec<u8>, count: usize) -> Result<(), NoMemory> {
    put_number(out, count as u64)?;
    Ok(())
}

/// What a job drops, or how many units it has.
fn job_row(
    out: &mut Vec<u8>,
    alloc: Global,
    content: &PlainContent,
    question: &str,
    path: &RepoPath,
    word: &str,
) -> Result<(), NoMemory> {
    let Some(job) = job_of(word) else {
        return bad_row(out);
    };
    if question == "units" {
        return put_count(out, gt_plain_jobs::units_of(alloc, content, path, job)?);
    }
    let names = gt_plain_jobs::dropped_by(alloc, content, path, job)?;
    put_names(out, &names)?;
    Ok(())
}

fn marked(
    out: &mut Vec<u8>,
    alloc: Global,
    content: &PlainContent,
    path: &RepoPath,
    word: &str,
) -> Result<(), NoMemory> {
    let Some(at) = path_of(alloc, word) else {
        return bad_row(out);
    };
    let pairs = gt_plain_jobs::marked(alloc, content, path)?;
    let names = names_at(alloc, &pairs, &at)?;
    put_count(out, pairs.len())?;
    put_names(out, &ascending(alloc, &names)?)?;
    Ok(())
}

/// The names of one repository's pairs. Each that comes twice is there twice.
fn names_at(
    alloc: Global,
    pairs: &[(RepoPath, Name)],
    at: &RepoPath,
) -> Result<Vec<Name>, NoMemory> {
    let mut names = Vec::new(alloc);
    for pair in pairs {
        if &pair.0 == at {
            names.push(pair.1)?;
        }
    }
    Ok(names)
}

fn left(
    out: &mut Vec<u8>,
    alloc: Global,
    content: &PlainContent,
    path: &RepoPath,
    words: &str,
) -> Result<(), NoMemory> {
    let Some(dropped) = names_of(alloc, words) else {
        return bad_row(out);
    };
    let objects = gt_plain_jobs::left_objects(alloc, content, path, dropped.as_slice())?;
    put_objects(out, &objects)
}

/// How many objects there are, and the name and the length of each.
fn put_objects(out: &mut Vec<u8>, objects: &[(Name, Record)]) -> Result<(), NoMemory> {
    put_count(out, objects.len())?;
    for object in objects {
        put_name(out, &object.0)?;
        put_number(out, object.1.bytes().len() as u64)?;
    }
    Ok(())
}
