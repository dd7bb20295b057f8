//! Questions: `refs`, `objects`, `table`, `plain` or `look WHERE`, each with `QUESTION POSITION PATH [WORDS]`; `fits WHERE`,
//! of the entry in hand; `verdict WHERE PATH` and `version`. The plain model and `look` have the front alone.
use crate::asked::{Asked, asked_of};
use crate::bench::Bench;
use crate::refs::{named, put_clash};
use crate::shown::put_path;
use crate::{objects, refs, table, verdicts, version};
use gt_model::Look;
use gt_plain::PlainContent;
use row_words::{name_of, put, put_is, put_value, ref_of};
use std::alloc::{AllocError, Global};

pub(crate) fn row(
    out: &mut Vec<u8>,
    alloc: Global,
    bench: &Bench,
    first: &str,
    words: &str,
) -> Result<(), AllocError> {
    match first {
        "fits" => put(out, fits(bench, words).as_bytes()),
        "verdict" => verdicts::row(out, alloc, bench, words),
        "version" => version::row(out, alloc, words),
        _ => ask(out, alloc, bench, first, words),
    }
}

fn fits(bench: &Bench, place: &str) -> &'static str {
    let Some(entry) = &bench.entry else {
        return "no entry";
    };
    if place == "table" {
        return table::fits(&bench.table, entry);
    }
    if bench.content.fits(entry) {
        "fits"
    } else {
        "unfit"
    }
}

fn ask(
    out: &mut Vec<u8>,
    alloc: Global,
    bench: &Bench,
    first: &str,
    words: &str,
) -> Result<(), AllocError> {
    let Some((question, words)) = words.split_once(' ') else {
        return put(out, b"bad row");
    };
    match asked_of(alloc, words) {
        Some(asked) => ask_about(out, alloc, bench, first, question, &asked),
        None => put(out, b"bad row"),
    }
}

fn ask_about(
    out: &mut Vec<u8>,
    alloc: Global,
    bench: &Bench,
    first: &str,
    question: &str,
    asked: &Asked,
) -> Result<(), AllocError> {
    match first {
        "refs" => refs::row(out, alloc, &bench.refs, question, asked),
        "objects" => objects::row(out, alloc, &bench.objects, question, asked),
        "table" => table::row(out, alloc, &bench.table, question, asked),
        "look" => look(out, alloc, &bench.table, question, asked),
        "plain" => plain(out, alloc, &bench.content, question, asked),
        _ => put(out, b"bad row"),
    }
}

/// `repo`, `value`, `visible` or `clash`: what the checks of a commit ask.
fn look<L: Look>(
    out: &mut Vec<u8>,
    alloc: Global,
    look: &L,
    question: &str,
    asked: &Asked,
) -> Result<(), AllocError> {
    match question {
        "repo" => put_is(out, look.has_repo(&asked.path)),
        "value" => value(out, alloc, look, asked),
        "visible" => visible(out, look, asked),
        "clash" => clash(out, alloc, look, asked),
        _ => put(out, b"no such question"),
    }
}

fn value<L: Look>(
    out: &mut Vec<u8>,
    alloc: Global,
    look: &L,
    asked: &Asked,
) -> Result<(), AllocError> {
    match ref_of(alloc, asked.word) {
        Some(name) => put_value(out, look.value(&asked.path, &name)),
        None => put(out, b"no such name"),
    }
}

fn visible<L: Look>(out: &mut Vec<u8>, look: &L, asked: &Asked) -> Result<(), AllocError> {
    match name_of(asked.word) {
        Some(name) => put_is(out, look.visible(&asked.path, &name)),
        None => put(out, b"no such name"),
    }
}

fn clash<L: Look>(
    out: &mut Vec<u8>,
    alloc: Global,
    look: &L,
    asked: &Asked,
) -> Result<(), AllocError> {
    match named(alloc, asked.word) {
        Some((name, gone)) => put_clash(out, look.clash(&asked.path, &name, &gone)),
        None => put(out, b"no such name"),
    }
}

/// The same of the plain model, and `own`, `pool` and `member`.
fn plain(
    out: &mut Vec<u8>,
    alloc: Global,
    content: &PlainContent,
    question: &str,
    asked: &Asked,
) -> Result<(), AllocError> {
    match question {
        "own" => own(out, content, asked),
        "pool" => pool(out, content, asked),
        "member" => put_path(out, content.least_member(&asked.path)),
        _ => look(out, alloc, content, question, asked),
    }
}

fn own(out: &mut Vec<u8>, content: &PlainContent, asked: &Asked) -> Result<(), AllocError> {
    match name_of(asked.word) {
        Some(name) => put_is(out, content.own(&asked.path, &name).is_some()),
        None => put(out, b"no such name"),
    }
}

/// Whether a repository is a pool, and the path of its pool.
fn pool(out: &mut Vec<u8>, content: &PlainContent, asked: &Asked) -> Result<(), AllocError> {
    put_is(out, content.is_pool(&asked.path))?;
    put_path(out, content.pool_of(&asked.path))
}
