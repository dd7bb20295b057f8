//! Where the entry in hand is added.
use crate::bench::Bench;
use crate::table::add_table;
use gt_model::Entry;
use gt_objset::ObjSet;
use gt_plain::PlainContent;
use gt_reftable::RefTable;
use std::alloc::Global;

/// Adds the entry in hand: `ok`, or what stands against it. The table takes it out of the hand.
pub(crate) fn add(alloc: Global, bench: &mut Bench, place: &str) -> &'static str {
    let Some(entry) = bench.entry.take() else {
        return "no entry";
    };
    if place == "table" {
        return add_table(alloc, &mut bench.table, entry);
    }
    let answer = add_in(alloc, bench, place, &entry);
    bench.entry = Some(entry);
    answer
}

fn add_in(alloc: Global, bench: &mut Bench, place: &str, entry: &Entry) -> &'static str {
    match place {
        "refs" => add_refs(alloc, &mut bench.refs, entry),
        "objects" => add_objects(alloc, &mut bench.objects, entry),
        "plain" => add_plain(alloc, &mut bench.content, entry),
        _ => "no such place",
    }
}

pub(crate) fn add_refs(alloc: Global, refs: &mut RefTable, entry: &Entry) -> &'static str {
    let Some(next) = refs.front().checked_add(1) else {
        return "full";
    };
    if entry.position != next {
        return "not next";
    }
    if refs.prepare(alloc, entry).is_err() {
        return "memory";
    }
    refs.with(entry);
    "ok"
}

pub(crate) fn add_objects(alloc: Global, objects: &mut ObjSet, entry: &Entry) -> &'static str {
    let Some(next) = objects.front().checked_add(1) else {
        return "full";
    };
    if entry.position != next {
        return "not next";
    }
    if objects.prepare(alloc, entry).is_err() {
        return "memory";
    }
    objects.with(entry);
    "ok"
}

fn add_plain(alloc: Global, content: &mut PlainContent, entry: &Entry) -> &'static str {
    if !content.fits(entry) {
        return "unfit";
    }
    match content.apply(alloc, entry) {
        Ok(()) => "ok",
        Err(_) => "memory",
    }
}

/// Takes the memory for the entry in hand, which isn't added.
pub(crate) fn prepare(alloc: Global, bench: &mut Bench, place: &str) -> &'static str {
    let Some(entry) = &bench.entry else {
        return "no entry";
    };
    let prepared = match place {
        "refs" => bench.refs.prepare(alloc, entry),
        _ => bench.objects.prepare(alloc, entry),
    };
    match prepared {
        Ok(()) => "ok",
        Err(_) => "memory",
    }
}
