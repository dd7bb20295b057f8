//! The line of what was done.
ghost use Rattle.std.specs.Prelude.{◌≡◌, ◌∷◌, [], ◌++◌, codes, decimal, length, IfErr, OnOk};
ghost use Rattle.hex.specs.Hex.{encode_lower};
ghost use Rattle.gt_object.specs.Header.{kind_of};
ghost use Rattle.gt_object.specs.Whole.{content_of};
ghost use Rattle.gt_script.specs.declared.error.LineError.TheVariants.{Memory};
ghost use Rattle.gt_script.specs.Printed.{line, further, created_line, value_line, step_line, refs_words, kind_word, content_word, done_line};
ghost use Rattle.gt_script.specs.Answers.{Writes};

use crate::LineError;
use crate::lines::{bare, line, ok, put, put_word, with_name, with_word};
use gt_model::{Done, RefList, RefValue};
use gt_name::Name;
use gt_object::Record;
use itoa::Buffer;
use std::alloc::Global;

fn created(alloc: Global, position: u64, pool: bool) -> Result<Vec<u8>, LineError>
    ensures { Writes (created_line position pool) result }
{
    if pool {
        ok(alloc, b"pool", position)
    } else {
        ok(alloc, b"create", position)
    }
}

fn value(alloc: Global, value: &Option<Name>) -> Result<Vec<u8>, LineError>
    ensures { Writes (value_line value.now) result }
{
    match value {
        None => bare(alloc, b"noref"),
        Some(name) => with_name(alloc, b"ref", name),
    }
}

fn step(alloc: Global, ready: bool) -> Result<Vec<u8>, LineError>
    ensures { Writes (step_line ready) result }
{
    if ready {
        bare(alloc, b"ready")
    } else {
        bare(alloc, b"more")
    }
}

/// The value and the name of a reference.
fn put_ref(out: &mut Vec<u8>, reference: &RefValue) -> Result<(), LineError>
    ensures ok { OnOk result (out.new.items ≡ out.old.items ++ 32 ∷ (encode_lower reference.now.value ++ 32 ∷ reference.now.name)) }
    ensures err { IfErr result (λ e. e ≡ Memory) }
{
    let value = reference.value.text();
    match put_word(out, &value) {
        Ok(()) => put_word(out, reference.name.bytes()),
        Err(e) => Err(e),
    }
}

fn put_refs(out: &mut Vec<u8>, list: &[RefValue]) -> Result<(), LineError>
    ensures ok { OnOk result (out.new.items ++ 10 ∷ [] ≡ out.old.items ++ further (refs_words list.now)) }
    ensures err { IfErr result (λ e. e ≡ Memory) }
{
    for reference in list {
        if let Err(e) = put_ref(out, reference) {
            return Err(e);
        }
    }
    Ok(())
}

fn refs(alloc: Global, list: &RefList) -> Result<Vec<u8>, LineError>
    ensures { Writes (line (codes "refs") (decimal (length list.now) ∷ refs_words list.now)) result }
{
    let mut out = Vec::new(alloc);
    let mut buffer = Buffer::new();
    if let Err(e) = put(&mut out, b"refs") {
        return Err(e);
    }
    if let Err(e) = put_word(&mut out, buffer.format(list.len()).as_bytes()) {
        return Err(e);
    }
    if let Err(e) = put_refs(&mut out, list.as_slice()) {
        return Err(e);
    }
    match put(&mut out, b"\n") {
        Ok(()) => Ok(out),
        Err(e) => Err(e),
    }
}

fn in_hex(alloc: Global, word: &[u8], content: &[u8]) -> Result<Vec<u8>, LineError>
    ensures { Writes (line (codes "object") (word.now ∷ encode_lower content.now ∷ [])) result }
{
    match hex::encode(alloc, content) {
        Ok(digits) => line(alloc, b"object", &[word, digits.as_bytes()]),
        Err(_) => Err(LineError::Memory),
    }
}

fn content(alloc: Global, word: &[u8], content: &[u8]) -> Result<Vec<u8>, LineError>
    ensures { Writes (line (codes "object") (word.now ∷ content_word content.now ∷ [])) result }
{
    if content.is_empty() {
        line(alloc, b"object", &[word, b"-"])
    } else {
        in_hex(alloc, word, content)
    }
}

fn object(alloc: Global, whole: &Record) -> Result<Vec<u8>, LineError>
    ensures { Writes (line (codes "object") (kind_word (kind_of whole.now) ∷ content_word (content_of whole.now) ∷ [])) result }
{
    let kind = whole.kind();
    content(alloc, kind.word(), whole.content())
}

/// The line of what was done.
pub(crate) fn done_line(alloc: Global, done: &Done) -> Result<Vec<u8>, LineError>
    ensures { Writes (done_line done.now) result }
{
    match done {
        Done::Created { position, pool } => created(alloc, *position, *pool),
        Done::Deleted { position } => ok(alloc, b"delete", *position),
        Done::Linked { position } => ok(alloc, b"link", *position),
        Done::Begun { position } => ok(alloc, b"begin", *position),
        Done::Committed { position } => ok(alloc, b"commit", *position),
        Done::Finished { position } => ok(alloc, b"done", *position),
        Done::HouseOpen { position } => ok(alloc, b"house", *position),
        Done::HouseDone { position } => ok(alloc, b"close", *position),
        Done::Applied { position } => ok(alloc, b"apply", *position),
        Done::Trimmed { low } => ok(alloc, b"trim", *low),
        Done::Value { value: found } => value(alloc, found),
        Done::Refs { list } => refs(alloc, list),
        Done::Object { whole } => object(alloc, whole),
        Done::Named { name } => with_name(alloc, b"name", name),
        Done::Staged => with_word(alloc, b"ok", b"set"),
        Done::Checked => with_word(alloc, b"ok", b"verify"),
        Done::Aborted => with_word(alloc, b"ok", b"abort"),
        Done::Step { ready } => step(alloc, *ready),
        Done::Swept => with_word(alloc, b"ok", b"sweep"),
        Done::Restarted => with_word(alloc, b"ok", b"restart"),
    }
}
