//! The table of a log.
ghost use Rattle.std.specs.Prelude.{◌≡◌, ◌≤◌, ◌+◌, IsTrue};
ghost use Rattle.gt_model.specs.Contents.{fits as is_fit};
ghost use Rattle.gt_table.specs.Table.{floor, front, content};

use crate::asked::Asked;
use crate::shown::{put_list, put_path, put_place};
use gt_base::is_built;
use gt_model::Entry;
use gt_table::Table;
use row_words::{name_of, put, put_value, ref_of};
use std::alloc::{AllocError, Global};

/// Whether an entry fits at the front: `ok`, or what stands against it.
pub(crate) fn fits(table: &Table, entry: &Entry) -> &'static str {
    if !is_built(&entry.change) {
        return "not built";
    }
    if table.fits(entry) { "fits" } else { "unfit" }
}

/// Adds an entry: `ok`, or what stands against it.
pub(crate) fn add_table(alloc: Global, table: &mut Table, entry: Entry) -> &'static str {
    if table.front().checked_add(1) != Some(entry.position) {
        return "not next";
    }
    if !is_built(&entry.change) {
        return "not built";
    }
    if !table.fits(&entry) {
        return "unfit";
    }
    add_fit(alloc, table, entry)
}

fn add_fit(alloc: Global, table: &mut Table, entry: Entry) -> &'static str
    requires next { entry.position ≡ front table.old.past + 1 }
    requires fit { IsTrue (is_fit (content table.old.past) entry) }
{
    match table.prepare(alloc, &entry) {
        Ok(()) => {
            table.add(entry);
            "ok"
        }
        Err(_) => "memory",
    }
}

/// `get`, `list`, `place` or `member`, at a position.
pub(crate) fn row(
    out: &mut Vec<u8>,
    alloc: Global,
    table: &Table,
    question: &str,
    asked: &Asked,
) -> Result<(), AllocError> {
    if asked.at < table.floor() || table.front() < asked.at {
        return put(out, b"no such position");
    }
    match question {
        "get" => get(out, alloc, table, asked),
        "list" => list(out, alloc, table, asked),
        "place" => place(out, table, asked),
        "member" => put_path(out, table.least_member(&asked.path)),
        _ => put(out, b"no such question"),
    }
}

fn get(out: &mut Vec<u8>, alloc: Global, table: &Table, asked: &Asked) -> Result<(), AllocError>
    requires from { floor table.now ≤ asked.now.at }
    requires to { asked.now.at ≤ front table.now.past }
{
    match ref_of(alloc, asked.word) {
        Some(name) => put_value(out, table.value_at(asked.at, &asked.path, &name)),
        None => put(out, b"no such name"),
    }
}

fn list(out: &mut Vec<u8>, alloc: Global, table: &Table, asked: &Asked) -> Result<(), AllocError>
    requires from { floor table.now ≤ asked.now.at }
    requires to { asked.now.at ≤ front table.now.past }
{
    match table.list_at(alloc, asked.at, &asked.path, asked.word.as_bytes()) {
        Ok(list) => put_list(out, &list),
        Err(_) => put(out, b"memory"),
    }
}

fn place(out: &mut Vec<u8>, table: &Table, asked: &Asked) -> Result<(), AllocError>
    requires from { floor table.now ≤ asked.now.at }
    requires to { asked.now.at ≤ front table.now.past }
{
    match name_of(asked.word) {
        Some(name) => put_place(out, table.place_at(asked.at, &asked.path, &name)),
        None => put(out, b"no such name"),
    }
}
