//! What is staged.
use crate::numbered::{fill_stage, put_many, stage_many};
use crate::shown::put_updates;
use gt_model::{AddedRecords, RefUpdate};
use gt_name::Name;
use gt_stage::{Stage, StageError};
use row_words::{
    name_of, number, put, put_is, put_name, put_number, put_value, record_of, ref_of, update_of,
};
use std::alloc::{AllocError, Global};
use std::mem;

/// - `up REFERENCE OLD NEW` and `put KIND CONTENT`: an update, a check or a record, and whether it is staged;
/// - `many COUNT`, `fill COUNT`: so many numbered updates, or records;
/// - `byte BYTE LENGTH`: a blob of one byte again and again;
/// - `room BYTES REFERENCES`: an empty stage with these limits;
/// - `refs -`, `records -`, `ref NAME`, `record NAME`: what is staged.
pub(crate) fn row(
    out: &mut Vec<u8>,
    alloc: Global,
    stage: &mut Stage,
    words: &str,
) -> Result<(), AllocError> {
    match words.split_once(' ') {
        Some(("up", words)) => up(out, alloc, stage, words),
        Some(("put", words)) => put_record(out, alloc, stage, words),
        Some(("many", count)) => put(out, stage_many(alloc, stage, number(count)).as_bytes()),
        Some(("fill", count)) => put(out, fill_stage(alloc, stage, number(count)).as_bytes()),
        Some(("byte", words)) => put(out, put_byte(alloc, stage, words).as_bytes()),
        Some(("room", words)) => put(out, room(alloc, stage, words).as_bytes()),
        Some((question, word)) => ask(out, alloc, stage, question, word),
        None => put(out, b"bad row"),
    }
}

/// The word of an answer.
pub(crate) fn word_of(answer: Result<(), StageError>) -> &'static str {
    match answer {
        Ok(()) => "staged",
        Err(StageError::StageFull) => "full",
        Err(StageError::Memory) => "memory",
    }
}

pub(crate) fn stage_update(stage: &mut Stage, update: RefUpdate) -> Result<(), StageError> {
    match update.new {
        Some(new) => stage.set(update.name, update.old, new),
        None => stage.verify(update.name, update.old),
    }
}

fn up(out: &mut Vec<u8>, alloc: Global, stage: &mut Stage, words: &str) -> Result<(), AllocError> {
    match update_of(alloc, words) {
        Some(update) => put(out, word_of(stage_update(stage, update)).as_bytes()),
        None => put(out, b"bad row"),
    }
}

/// The name that is answered, or the word of the error.
fn put_named(out: &mut Vec<u8>, answer: Result<Name, StageError>) -> Result<(), AllocError> {
    match answer {
        Ok(name) => put_name(out, &name),
        Err(error) => put(out, word_of(Err(error)).as_bytes()),
    }
}

fn put_record(
    out: &mut Vec<u8>,
    alloc: Global,
    stage: &mut Stage,
    words: &str,
) -> Result<(), AllocError> {
    match record_of(alloc, words) {
        Some(record) => put_named(out, stage.put(record)),
        None => put(out, b"bad row"),
    }
}

fn put_byte(alloc: Global, stage: &mut Stage, words: &str) -> &'static str {
    let Some((byte, len)) = words.split_once(' ') else {
        return "bad row";
    };
    put_many(
        alloc,
        stage,
        byte.parse::<u8>().unwrap_or(0),
        number(len).unwrap_or(0),
    )
}

fn room_of(alloc: Global, words: &str) -> Option<Stage> {
    let (bytes, refs) = words.split_once(' ')?;
    let refs = refs.parse::<u32>().ok()?;
    Some(Stage::with_room(alloc, number(bytes)?, refs))
}

fn room(alloc: Global, stage: &mut Stage, words: &str) -> &'static str {
    match room_of(alloc, words) {
        Some(mut empty) => {
            mem::swap(stage, &mut empty);
            "empty"
        }
        None => "bad row",
    }
}

fn ask(
    out: &mut Vec<u8>,
    alloc: Global,
    stage: &Stage,
    question: &str,
    word: &str,
) -> Result<(), AllocError> {
    match question {
        "refs" => refs(out, alloc, stage),
        "records" => records(out, alloc, stage),
        "ref" => own_ref(out, alloc, stage, word),
        "record" => own_record(out, stage, word),
        "at" => at(out, stage, word),
        _ => put(out, b"no such question"),
    }
}

/// Whether the stage is empty, how many references it has, and the copy of all.
fn refs(out: &mut Vec<u8>, alloc: Global, stage: &Stage) -> Result<(), AllocError> {
    put_is(out, stage.is_empty())?;
    put_number(out, stage.refs_len() as u64)?;
    match stage.refs(alloc) {
        Ok(refs) => put_updates(out, &refs),
        Err(_) => put(out, b"memory"),
    }
}

/// The same of records.
fn records(out: &mut Vec<u8>, alloc: Global, stage: &Stage) -> Result<(), AllocError> {
    put_is(out, stage.is_empty())?;
    put_number(out, stage.records_len() as u64)?;
    match stage.records(alloc) {
        Ok(records) => put_records(out, &records),
        Err(_) => put(out, b"memory"),
    }
}

fn put_records(out: &mut Vec<u8>, records: &AddedRecords) -> Result<(), AllocError> {
    put_number(out, records.len() as u64)?;
    for record in records.as_slice() {
        put_name(out, &record.name)?;
        put_number(out, record.whole.bytes().len() as u64)?;
    }
    Ok(())
}

fn own_ref(out: &mut Vec<u8>, alloc: Global, stage: &Stage, word: &str) -> Result<(), AllocError> {
    match ref_of(alloc, word) {
        Some(name) => put_value(out, stage.own_ref(&name)),
        None => put(out, b"no such name"),
    }
}

/// The name of the record that is found.
fn own_record(out: &mut Vec<u8>, stage: &Stage, word: &str) -> Result<(), AllocError> {
    let name = name_of(word).unwrap_or(Name::ZERO);
    match stage.own_record(&name) {
        Some(whole) => put_name(out, &whole.name()),
        None => put(out, b"none"),
    }
}

/// The reference and the record of an index.
fn at(out: &mut Vec<u8>, stage: &Stage, word: &str) -> Result<(), AllocError> {
    let at = word.parse::<usize>().unwrap_or(usize::MAX);
    match stage.ref_at(at) {
        Some((name, _, new)) => {
            put(out, name.bytes())?;
            put_is(out, new.is_some())?;
        }
        None => put(out, b"none")?,
    }
    match stage.record_at(at) {
        Some((name, _)) => put_name(out, &name),
        None => put(out, b"none"),
    }
}
