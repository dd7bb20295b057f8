//! Words of a row. A name of an object is 40 hex digits, or `0` for no object; a content is hex digits, or `-` for none.
use gt_list::ListOf;
use gt_model::RefUpdate;
use gt_name::{Name, Names, Names2, RefName, RepoPath};
use gt_object::{Kind, Record};
use std::alloc::Global;

pub fn number(word: &str) -> Option<u64> {
    word.parse::<u64>().ok()
}

pub fn path_of(alloc: Global, word: &str) -> Option<RepoPath> {
    RepoPath::parse(alloc, word.as_bytes()).ok()
}

pub fn ref_of(alloc: Global, word: &str) -> Option<RefName> {
    RefName::parse(alloc, word.as_bytes()).ok()
}

pub fn name_of(word: &str) -> Option<Name> {
    if word == "0" {
        return Some(Name::ZERO);
    }
    Name::parse(word.as_bytes()).ok()
}

/// References, each word one.
pub fn refs_of(alloc: Global, words: &str) -> Option<Names2> {
    let mut list = ListOf::new(alloc);
    for word in words.split(' ') {
        list.push(ref_of(alloc, word)?).ok()?;
    }
    Some(list)
}

/// Names of objects, each word one.
pub fn names_of(alloc: Global, words: &str) -> Option<Names> {
    let mut list = ListOf::new(alloc);
    if words.is_empty() {
        return Some(list);
    }
    for word in words.split(' ') {
        list.push(name_of(word)?).ok()?;
    }
    Some(list)
}

/// `REFERENCE OLD NEW`, an update, or `REFERENCE OLD -`, a check.
pub fn update_of(alloc: Global, words: &str) -> Option<RefUpdate> {
    let (name, values) = words.split_once(' ')?;
    let (old, new) = values.split_once(' ')?;
    let new = aim_of(new)?;
    let old = name_of(old)?;
    let name = ref_of(alloc, name)?;
    Some(RefUpdate { name, old, new })
}

fn aim_of(word: &str) -> Option<Option<Name>> {
    if word == "-" {
        return Some(None);
    }
    Some(Some(name_of(word)?))
}

fn kind_of(word: &str) -> Option<Kind> {
    match word {
        "blob" => Some(Kind::Blob),
        "tree" => Some(Kind::Tree),
        "commit" => Some(Kind::Commit),
        "tag" => Some(Kind::Tag),
        _ => None,
    }
}

/// `KIND CONTENT`.
pub fn record_of(alloc: Global, words: &str) -> Option<Record> {
    let (kind, content) = words.split_once(' ')?;
    let kind = kind_of(kind)?;
    if content == "-" {
        return Record::new(alloc, kind, b"").ok();
    }
    let content = hex::decode(alloc, content).ok()?;
    Record::new(alloc, kind, &content).ok()
}
