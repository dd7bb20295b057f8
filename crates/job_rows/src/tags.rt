//! What tags lead to: `peel PATH NAME`, `peeled PATH NAME` and `tags PATH NAME`.
use crate::asking::bad_row;
use gt_list::NoMemory;
use gt_name::{Name, RepoPath};
use gt_plain::PlainContent;
use row_words::{name_of, put, put_number, put_value};
use std::alloc::Global;

pub(crate) fn row(
    out: &mut Vec<u8>,
    alloc: Global,
    content: &PlainContent,
    question: &str,
    path: &RepoPath,
    word: &str,
) -> Result<(), NoMemory> {
    match name_of(word) {
        Some(name) => row_at(out, alloc, content, question, path, &name),
        None => {
            put(out, b"no such name")?;
            Ok(())
        }
    }
}

fn row_at(
    out: &mut Vec<u8>,
    alloc: Global,
    content: &PlainContent,
    question: &str,
    path: &RepoPath,
    name: &Name,
) -> Result<(), NoMemory> {
    match question {
        "peel" => put_value(out, gt_plain_jobs::peel(alloc, content, path, name)?)?,
        "peeled" => put_value(out, gt_plain_jobs::peeled(alloc, content, path, name)?)?,
        "tags" => {
            let count = gt_plain_jobs::tag_count(alloc, content, path, name)?;
            put_number(out, count as u64)?
        }
        _ => return bad_row(out),
    }
    Ok(())
}
