//! The table of references.
ghost use Rattle.std.specs.Prelude.{◌≤◌};

use crate::asked::Asked;
use crate::shown::put_list;
use gt_list::ListOf;
use gt_name::{Names2, RefName};
use gt_reftable::RefTable;
use row_words::{put, put_value, ref_of, refs_of};
use std::alloc::{AllocError, Global};

/// `get`, `list` or `clash`, at a position.
pub(crate) fn row(
    out: &mut Vec<u8>,
    alloc: Global,
    refs: &RefTable,
    question: &str,
    asked: &Asked,
) -> Result<(), AllocError> {
    if asked.at < refs.floor() || refs.front() < asked.at {
        return put(out, b"no such position");
    }
    match question {
        "get" => get(out, alloc, refs, asked),
        "list" => list(out, alloc, refs, asked),
        "clash" => clash(out, alloc, refs, asked),
        _ => put(out, b"no such question"),
    }
}

fn get(out: &mut Vec<u8>, alloc: Global, refs: &RefTable, asked: &Asked) -> Result<(), AllocError>
    requires from { refs.now.floor ≤ asked.now.at }
    requires to { asked.now.at ≤ refs.now.front }
{
    match ref_of(alloc, asked.word) {
        Some(name) => put_value(out, refs.get(asked.at, &asked.path, &name)),
        None => put(out, b"no such name"),
    }
}

fn list(out: &mut Vec<u8>, alloc: Global, refs: &RefTable, asked: &Asked) -> Result<(), AllocError>
    requires from { refs.now.floor ≤ asked.now.at }
    requires to { asked.now.at ≤ refs.now.front }
{
    match refs.list(alloc, asked.at, &asked.path, asked.word.as_bytes()) {
        Ok(list) => put_list(out, &list),
        Err(_) => put(out, b"memory"),
    }
}

fn clash(out: &mut Vec<u8>, alloc: Global, refs: &RefTable, asked: &Asked) -> Result<(), AllocError>
    requires from { refs.now.floor ≤ asked.now.at }
    requires to { asked.now.at ≤ refs.now.front }
{
    match named(alloc, asked.word) {
        Some((name, gone)) => put_clash(out, refs.clash(asked.at, &asked.path, &name, &gone)),
        None => put(out, b"no such name"),
    }
}

/// `NAME GONE..`: a name, and those that are gone.
pub(crate) fn named(alloc: Global, words: &str) -> Option<(RefName, Names2)> {
    match words.split_once(' ') {
        Some((name, gone)) => Some((ref_of(alloc, name)?, refs_of(alloc, gone)?)),
        None => Some((ref_of(alloc, words)?, ListOf::new(alloc))),
    }
}

pub(crate) fn put_clash(out: &mut Vec<u8>, found: Option<&RefName>) -> Result<(), AllocError> {
    match found {
        Some(name) => put(out, name.bytes()),
        None => put(out, b"none"),
    }
}
