use gt_list::ListOf;
use gt_model::{AddedRecords, Limits, RefUpdates};
use gt_plain_files::PlainFiling;
use gt_plain_machine::{PlainState, opening, unapplied};
use row_words::number;
use std::alloc::Global;

/// What the rows work on: limits, a state of the machine and its files, and what the next commit stages.
#[derive(Drop)]
pub(crate) struct Bench {
    pub(crate) limits: Limits,
    pub(crate) state: PlainState,
    pub(crate) filing: PlainFiling,
    pub(crate) refs: RefUpdates,
    pub(crate) records: AddedRecords,
}

impl Bench {
    /// An empty log, of which nothing is applied.
    pub(crate) fn new(alloc: Global, limits: Limits) -> Option<Bench> {
        let state = opening(alloc, unapplied(alloc, ListOf::new(alloc))).ok()?;
        Some(Bench {
            limits,
            state,
            filing: PlainFiling::new(alloc),
            refs: ListOf::new(alloc),
            records: ListOf::new(alloc),
        })
    }
}

/// The program's limits.
pub(crate) fn usual() -> Limits {
    Limits::usual()
}

/// `POSITIONS EPOCHS PINS`.
pub(crate) fn limits_of(words: &str) -> Option<Limits> {
    let (positions, words) = words.split_once(' ')?;
    let (epochs, pins) = words.split_once(' ')?;
    Some(Limits {
        positions: number(positions)?,
        epochs: number(epochs)?,
        pins: u8::try_from(number(pins)?).ok()?,
        paths: 65_536,
    })
}
