//! The line of each refusal.
ghost use Rattle.std.specs.Prelude.{◌≡◌, ◌∷◌, [], codes, decimal};
ghost use Rattle.hex.specs.Hex.{encode_lower};
ghost use Rattle.gt_script.specs.Printed.{line, needer_word, file_word, refusal_line};
ghost use Rattle.gt_script.specs.Answers.{Writes};

use crate::LineError;
use crate::lines::{bare, line, put, with_name, with_number, with_numbers, with_word};
use gt_disk::FileId;
use gt_model::{Needer, Refusal};
use gt_name::{Name, RefName};
use itoa::Buffer;
use std::alloc::Global;

fn conflict(
    alloc: Global,
    name: &RefName,
    expected: &Name,
    actual: &Name,
) -> Result<Vec<u8>, LineError>
    ensures { Writes (line (codes "conflict") (name.now ∷ codes "expected" ∷ encode_lower expected.now ∷ codes "actual" ∷ encode_lower actual.now ∷ [])) result }
{
    let expected = expected.text();
    let actual = actual.text();
    line(
        alloc,
        b"conflict",
        &[name.bytes(), b"expected", &expected, b"actual", &actual],
    )
}

fn directory(alloc: Global, name: &RefName, existing: &RefName) -> Result<Vec<u8>, LineError>
    ensures { Writes (line (codes "directory") (name.now ∷ codes "with" ∷ existing.now ∷ [])) result }
{
    line(
        alloc,
        b"directory",
        &[name.bytes(), b"with", existing.bytes()],
    )
}

fn missing_for(alloc: Global, name: &Name, needer: &[u8]) -> Result<Vec<u8>, LineError>
    ensures { Writes (line (codes "missing") (encode_lower name.now ∷ codes "for" ∷ needer.now ∷ [])) result }
{
    let name = name.text();
    line(alloc, b"missing", &[&name, b"for", needer])
}

fn missing_for_object(alloc: Global, name: &Name, needer: &Name) -> Result<Vec<u8>, LineError>
    ensures { Writes (line (codes "missing") (encode_lower name.now ∷ codes "for" ∷ encode_lower needer.now ∷ [])) result }
{
    let needer = needer.text();
    missing_for(alloc, name, &needer)
}

fn missing(alloc: Global, name: &Name, needed_by: &Needer) -> Result<Vec<u8>, LineError>
    ensures { Writes (line (codes "missing") (encode_lower name.now ∷ codes "for" ∷ needer_word needed_by.now ∷ [])) result }
{
    match needed_by {
        Needer::Ref(reference) => missing_for(alloc, name, reference.bytes()),
        Needer::Object(object) => missing_for_object(alloc, name, object),
    }
}

fn pruned(alloc: Global, name: &Name, position: u64) -> Result<Vec<u8>, LineError>
    ensures { Writes (line (codes "pruned") (encode_lower name.now ∷ decimal position ∷ [])) result }
{
    let name = name.text();
    let mut buffer = Buffer::new();
    line(
        alloc,
        b"pruned",
        &[&name, buffer.format(position).as_bytes()],
    )
}

/// The kind and the number of a file.
fn file_word(alloc: Global, file: FileId) -> Result<Vec<u8>, LineError>
    ensures { Writes (file_word file) result }
{
    let mut out = Vec::new(alloc);
    let mut buffer = Buffer::new();
    if let Err(e) = put(&mut out, buffer.format(file.kind).as_bytes()) {
        return Err(e);
    }
    if let Err(e) = put(&mut out, b"-") {
        return Err(e);
    }
    match put(&mut out, buffer.format(file.number).as_bytes()) {
        Ok(()) => Ok(out),
        Err(e) => Err(e),
    }
}

fn damaged(alloc: Global, file: FileId, at: u64) -> Result<Vec<u8>, LineError>
    ensures { Writes (line (codes "damaged") (file_word file ∷ decimal at ∷ [])) result }
{
    let file = file_word(alloc, file)?;
    let mut buffer = Buffer::new();
    line(
        alloc,
        b"damaged",
        &[file.as_slice(), buffer.format(at).as_bytes()],
    )
}

/// The line of a refusal.
pub(crate) fn refusal_line(alloc: Global, refusal: &Refusal) -> Result<Vec<u8>, LineError>
    ensures { Writes (refusal_line refusal.now) result }
{
    match refusal {
        Refusal::NoRepository => bare(alloc, b"norepository"),
        Refusal::RepositoryExists => bare(alloc, b"exists"),
        Refusal::RepositoryGone => bare(alloc, b"gone"),
        Refusal::Behind { seen, front } => with_numbers(alloc, b"behind", *seen, *front),
        Refusal::PinsFull => bare(alloc, b"pinsfull"),
        Refusal::Absent { name } => with_name(alloc, b"absent", name),
        Refusal::ReferenceConflict {
            name,
            expected,
            actual,
        } => conflict(alloc, name, expected, actual),
        Refusal::DirectoryConflict { name, existing } => directory(alloc, name, existing),
        Refusal::MissingObject { name, needed_by } => missing(alloc, name, needed_by),
        Refusal::HousekeepingConflict { position } => {
            with_number(alloc, b"houseconflict", *position)
        }
        Refusal::PrunedObject { name, position } => pruned(alloc, name, *position),
        Refusal::LogFull => bare(alloc, b"logfull"),
        Refusal::EpochFull => bare(alloc, b"epochfull"),
        Refusal::MapFull => bare(alloc, b"mapfull"),
        Refusal::StageFull => bare(alloc, b"stagefull"),
        Refusal::TooLarge => bare(alloc, b"toolarge"),
        Refusal::BadObject { at } => with_number(alloc, b"badobject", *at),
        Refusal::BadRef { rule, at } => with_numbers(alloc, b"badref", u64::from(*rule), *at),
        Refusal::BadPath { at } => with_number(alloc, b"badpath", *at),
        Refusal::IsPool => bare(alloc, b"ispool"),
        Refusal::NotPool => bare(alloc, b"notpool"),
        Refusal::AlreadyLinked => bare(alloc, b"linked"),
        Refusal::NotLinked => bare(alloc, b"notlinked"),
        Refusal::PoolInUse { member } => with_word(alloc, b"poolinuse", member.bytes()),
        Refusal::OtherPartition => bare(alloc, b"elsewhere"),
        Refusal::NotOpen => bare(alloc, b"notopen"),
        Refusal::AlreadyOpen => bare(alloc, b"alreadyopen"),
        Refusal::NoJob => bare(alloc, b"nojob"),
        Refusal::NotReady => bare(alloc, b"notready"),
        Refusal::DeviceFault => bare(alloc, b"devicefault"),
        Refusal::Unsure { position } => with_number(alloc, b"unsure", *position),
        Refusal::MapUnsure { number } => with_number(alloc, b"mapunsure", *number),
        Refusal::Damaged { file, at } => damaged(alloc, *file, *at),
        Refusal::Memory => bare(alloc, b"memory"),
    }
}
