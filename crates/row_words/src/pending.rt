//! Changes of entries, whose parts come before them.
use crate::reading::{name_of, number, path_of, record_of, update_of};
use gt_list::ListOf;
use gt_model::{Added, AddedRecords, Change, RefUpdates};
use gt_name::Names;
use std::alloc::Global;
use std::mem;

/// The parts of the next write: updates and checks, names that it needs (or that a repack drops), and records.
#[derive(Drop)]
pub struct Pending {
    pub refs: RefUpdates,
    pub names: Names,
    pub records: AddedRecords,
}

impl Pending {
    pub fn new(alloc: Global) -> Pending {
        Pending {
            refs: ListOf::new(alloc),
            names: ListOf::new(alloc),
            records: ListOf::new(alloc),
        }
    }

    /// `up REFERENCE OLD NEW`, `name NAME` or `record KIND CONTENT`.
    pub fn take(&mut self, alloc: Global, words: &str) -> Option<()> {
        match words.split_once(' ') {
            Some(("up", words)) => self.refs.push(update_of(alloc, words)?).ok(),
            Some(("name", word)) => self.names.push(name_of(word)?).ok(),
            Some(("record", words)) => self.records.push(added_of(alloc, words)?).ok(),
            _ => None,
        }
    }

    fn take_names(&mut self, alloc: Global) -> Names {
        mem::replace(&mut self.names, ListOf::new(alloc))
    }

    fn take_write(&mut self, alloc: Global) -> Change {
        Change::Write {
            refs: mem::replace(&mut self.refs, ListOf::new(alloc)),
            needed: self.take_names(alloc),
            added: mem::replace(&mut self.records, ListOf::new(alloc)),
        }
    }
}

fn added_of(alloc: Global, words: &str) -> Option<Added> {
    let whole = record_of(alloc, words)?;
    Some(Added {
        name: whole.name(),
        whole,
    })
}

/// The change of this kind. Where the kind has one, the word is the path of a pool, or the number of a file.
pub fn change_of(alloc: Global, kind: &str, word: &str, pending: &mut Pending) -> Option<Change> {
    match kind {
        "create" => Some(Change::Create { pool: false }),
        "pool" => Some(Change::Create { pool: true }),
        "delete" => Some(Change::Delete),
        "link" => linked(alloc, word),
        "write" => Some(pending.take_write(alloc)),
        _ => housed(kind, number(word)?, pending.take_names(alloc)),
    }
}

fn linked(alloc: Global, word: &str) -> Option<Change> {
    let pool = path_of(alloc, word)?;
    Some(Change::Link { pool })
}

fn housed(kind: &str, file: u64, dropped: Names) -> Option<Change> {
    match kind {
        "repack" => Some(Change::Repack { file, dropped }),
        "prune" => Some(Change::Prune { file, dropped }),
        "packrefs" => Some(Change::PackRefs { file }),
        "unlink" => Some(Change::Unlink { file }),
        _ => None,
    }
}
