//! Refusals, made from a word for each variant and its values.
use crate::answers::number;
use crate::names::{name_of, path_of, ref_of};
use gt_disk::FileId;
use gt_model::{Needer, Refusal};
use std::alloc::Global;

pub(crate) fn plain_refusal(word: &str) -> Option<Refusal> {
    match word {
        "NoRepository" => Some(Refusal::NoRepository),
        "RepositoryExists" => Some(Refusal::RepositoryExists),
        "RepositoryGone" => Some(Refusal::RepositoryGone),
        "PinsFull" => Some(Refusal::PinsFull),
        "LogFull" => Some(Refusal::LogFull),
        "EpochFull" => Some(Refusal::EpochFull),
        "MapFull" => Some(Refusal::MapFull),
        "StageFull" => Some(Refusal::StageFull),
        "TooLarge" => Some(Refusal::TooLarge),
        _ => plain_state(word),
    }
}

fn plain_state(word: &str) -> Option<Refusal> {
    match word {
        "IsPool" => Some(Refusal::IsPool),
        "NotPool" => Some(Refusal::NotPool),
        "AlreadyLinked" => Some(Refusal::AlreadyLinked),
        "NotLinked" => Some(Refusal::NotLinked),
        "OtherPartition" => Some(Refusal::OtherPartition),
        "NotOpen" => Some(Refusal::NotOpen),
        "AlreadyOpen" => Some(Refusal::AlreadyOpen),
        "NoJob" => Some(Refusal::NoJob),
        "NotReady" => Some(Refusal::NotReady),
        "DeviceFault" => Some(Refusal::DeviceFault),
        "Memory" => Some(Refusal::Memory),
        _ => None,
    }
}

pub(crate) fn numbered_refusal(word: &str, first: u64, second: u64) -> Option<Refusal> {
    match word {
        "Behind" => Some(Refusal::Behind {
            seen: first,
            front: second,
        }),
        "HousekeepingConflict" => Some(Refusal::HousekeepingConflict { position: first }),
        "BadObject" => Some(Refusal::BadObject { at: first }),
        "BadRef" => Some(Refusal::BadRef {
            rule: u8::try_from(first).unwrap_or(u8::MAX),
            at: second,
        }),
        "BadPath" => Some(Refusal::BadPath { at: first }),
        "Unsure" => Some(Refusal::Unsure { position: first }),
        "MapUnsure" => Some(Refusal::MapUnsure { number: first }),
        _ => None,
    }
}

pub(crate) fn named_refusal(alloc: Global, word: &str, first: &str, rest: &str) -> Option<Refusal> {
    match word {
        "Absent" => Some(Refusal::Absent {
            name: name_of(first)?,
        }),
        "PrunedObject" => Some(Refusal::PrunedObject {
            name: name_of(first)?,
            position: number(rest),
        }),
        "PoolInUse" => Some(Refusal::PoolInUse {
            member: path_of(alloc, first)?,
        }),
        "MissingObject" => missing(alloc, first, rest),
        "DirectoryConflict" => directory(alloc, first, rest),
        "ReferenceConflict" => conflict(alloc, first, rest),
        "Damaged" => damaged(first, rest),
        _ => None,
    }
}

fn missing(alloc: Global, name: &str, needer: &str) -> Option<Refusal> {
    let needed_by = match name_of(needer) {
        Some(object) => Needer::Object(object),
        None => Needer::Ref(ref_of(alloc, needer)?),
    };
    Some(Refusal::MissingObject {
        name: name_of(name)?,
        needed_by,
    })
}

fn directory(alloc: Global, name: &str, existing: &str) -> Option<Refusal> {
    Some(Refusal::DirectoryConflict {
        name: ref_of(alloc, name)?,
        existing: ref_of(alloc, existing)?,
    })
}

fn conflict(alloc: Global, name: &str, values: &str) -> Option<Refusal> {
    let (expected, actual) = values.split_once(' ')?;
    Some(Refusal::ReferenceConflict {
        expected: name_of(expected)?,
        actual: name_of(actual)?,
        name: ref_of(alloc, name)?,
    })
}

fn damaged(kind: &str, values: &str) -> Option<Refusal> {
    let (file, at) = values.split_once(' ')?;
    Some(Refusal::Damaged {
        file: FileId {
            kind: u8::try_from(number(kind)).unwrap_or(u8::MAX),
            number: number(file),
        },
        at: number(at),
    })
}
