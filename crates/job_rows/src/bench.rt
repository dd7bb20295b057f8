use gt_list::ListOf;
use gt_model::{Entry, EntryList};
use gt_plain::PlainContent;
use row_words::Pending;
use std::alloc::Global;

/// What the rows work on: the parts of the next entry, the entry in hand, a content, and entries in a row.
#[derive(Drop)]
pub(crate) struct Bench {
    pub(crate) pending: Pending,
    pub(crate) entry: Option<Entry>,
    pub(crate) content: PlainContent,
    pub(crate) batch: EntryList,
}

impl Bench {
    /// All empty.
    pub(crate) fn new(alloc: Global) -> Bench {
        Bench {
            pending: Pending::new(alloc),
            entry: None,
            content: PlainContent::new(alloc),
            batch: ListOf::new(alloc),
        }
    }
}
