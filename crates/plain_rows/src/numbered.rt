//! Many of a kind, for the sizes at which something turns.
use crate::bench::Bench;
use crate::entries::{add_objects, add_refs};
use crate::staging::{stage_update, word_of};
use crate::table::add_table;
use gt_list::ListOf;
use gt_model::{Added, Change, Entry, RefUpdate};
use gt_name::{Name, RefName, RepoPath};
use gt_object::{Kind, Record};
use gt_objset::ObjSet;
use gt_reftable::RefTable;
use gt_stage::Stage;
use gt_table::Table;
use row_words::{Pending, number, path_of};
use std::alloc::Global;

/// The number of the item of an index: no two of 1,000,003 have the same.
fn mixed(index: u64) -> u64 {
    index.wrapping_mul(7_919) % 1_000_003
}

/// `refs/heads/topic/` and six digits.
fn ref_at(alloc: Global, index: u64) -> Option<RefName> {
    let number = mixed(index);
    let text = format!(in alloc; "refs/heads/topic/{number:06}").ok()?;
    RefName::parse(alloc, text.as_bytes()).ok()
}

/// The blob of the number's digits.
fn record_at(alloc: Global, index: u64) -> Option<Added> {
    let number = mixed(index);
    let text = format!(in alloc; "{number}").ok()?;
    let whole = Record::new(alloc, Kind::Blob, text.as_bytes()).ok()?;
    Some(Added {
        name: whole.name(),
        whole,
    })
}

/// A new reference, whose value is the SHA-1 of its name.
fn update_at(alloc: Global, index: u64) -> Option<RefUpdate> {
    let name = ref_at(alloc, index)?;
    let value = Name::of_record(name.bytes());
    Some(RefUpdate {
        name,
        old: Name::ZERO,
        new: Some(value),
    })
}

/// A write of a numbered record, and of a numbered reference to it.
fn entry_at(alloc: Global, front: u64, path: &RepoPath) -> Option<Entry> {
    let added = record_at(alloc, front)?;
    let mut refs = ListOf::new(alloc);
    refs.push(RefUpdate {
        name: ref_at(alloc, front)?,
        old: Name::ZERO,
        new: Some(added.name),
    })
    .ok()?;
    let mut records = ListOf::new(alloc);
    records.push(added).ok()?;
    Some(Entry {
        position: front.checked_add(1)?,
        path: path.clone().ok()?,
        change: Change::Write {
            refs,
            needed: ListOf::new(alloc),
            added: records,
        },
    })
}

/// `up COUNT` and `record COUNT` for the next write; `refs COUNT PATH`, `objects COUNT PATH` and `table COUNT PATH`: so many
/// writes.
pub(crate) fn many(alloc: Global, bench: &mut Bench, words: &str) -> &'static str {
    let (place, words) = words.split_once(' ').unwrap_or((words, ""));
    let (count, path) = words.split_once(' ').unwrap_or((words, "a.git"));
    match (number(count), path_of(alloc, path)) {
        (Some(count), Some(path)) => many_in(alloc, bench, place, count, &path),
        _ => "bad row",
    }
}

fn many_in(
    alloc: Global,
    bench: &mut Bench,
    place: &str,
    count: u64,
    path: &RepoPath,
) -> &'static str {
    match place {
        "up" => many_updates(alloc, &mut bench.pending, count),
        "record" => many_records(alloc, &mut bench.pending, count),
        "refs" => many_refs(alloc, &mut bench.refs, count, path),
        "objects" => many_objects(alloc, &mut bench.objects, count, path),
        "table" => many_writes(alloc, &mut bench.table, count, path),
        _ => "no such place",
    }
}

fn many_updates(alloc: Global, pending: &mut Pending, count: u64) -> &'static str {
    for index in 0..count {
        let Some(update) = update_at(alloc, index) else {
            return "memory";
        };
        if pending.refs.push(update).is_err() {
            return "memory";
        }
    }
    "ok"
}

fn many_records(alloc: Global, pending: &mut Pending, count: u64) -> &'static str {
    for index in 0..count {
        let Some(record) = record_at(alloc, index) else {
            return "memory";
        };
        if pending.records.push(record).is_err() {
            return "memory";
        }
    }
    "ok"
}

fn many_refs(alloc: Global, refs: &mut RefTable, count: u64, path: &RepoPath) -> &'static str {
    for _ in 0..count {
        let Some(entry) = entry_at(alloc, refs.front(), path) else {
            return "memory";
        };
        let answer = add_refs(alloc, refs, &entry);
        if answer != "ok" {
            return answer;
        }
    }
    "ok"
}

fn many_objects(alloc: Global, objects: &mut ObjSet, count: u64, path: &RepoPath) -> &'static str {
    for _ in 0..count {
        let Some(entry) = entry_at(alloc, objects.front(), path) else {
            return "memory";
        };
        let answer = add_objects(alloc, objects, &entry);
        if answer != "ok" {
            return answer;
        }
    }
    "ok"
}

fn many_writes(alloc: Global, table: &mut Table, count: u64, path: &RepoPath) -> &'static str {
    for _ in 0..count {
        let Some(entry) = entry_at(alloc, table.front(), path) else {
            return "memory";
        };
        let answer = add_table(alloc, table, entry);
        if answer != "ok" {
            return answer;
        }
    }
    "ok"
}

/// Stages so many updates: the word of the last answer.
pub(crate) fn stage_many(alloc: Global, stage: &mut Stage, count: Option<u64>) -> &'static str {
    let mut answer = "staged";
    for index in 0..count.unwrap_or(0) {
        let Some(update) = update_at(alloc, index) else {
            return "memory";
        };
        answer = word_of(stage_update(stage, update));
    }
    answer
}

/// Stages so many records: the word of the last answer.
pub(crate) fn fill_stage(alloc: Global, stage: &mut Stage, count: Option<u64>) -> &'static str {
    let mut answer = "staged";
    for index in 0..count.unwrap_or(0) {
        let Some(record) = record_at(alloc, index) else {
            return "memory";
        };
        answer = word_of(stage.put(record.whole).map(|_| ()));
    }
    answer
}

/// Stages a blob of one byte so often.
pub(crate) fn put_many(alloc: Global, stage: &mut Stage, byte: u8, len: u64) -> &'static str {
    let Ok(content) = vec![in alloc; byte; len as usize] else {
        return "memory";
    };
    match Record::new(alloc, Kind::Blob, &content) {
        Ok(record) => word_of(stage.put(record).map(|_| ())),
        Err(_) => "too large",
    }
}
