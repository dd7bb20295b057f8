ghost use Rattle.std.specs.Prelude.{◌≡◌, ◌+◌, take, drop, fold, min, IfOk};
ghost use Rattle.gt_model.specs.Contents.{after_all};
ghost use Rattle.gt_model.specs.Machine.{front, content, content_at, entries_past, is_full, has_no_number, low_water};
ghost use Rattle.gt_plain_machine.specs.States.{as_state};

use crate::{PlainPin, PlainState};
use gt_list::NoMemory;
use gt_model::{Entry, Limits};
use gt_plain::PlainContent;
use std::alloc::Global;

impl PlainState {
    /// The position of the last entry.
    pub fn front(&self) -> Result<u64, NoMemory>
        ensures { IfOk result (λ n. n ≡ front (as_state self.now)) }
    {
        match self.begin.checked_add(self.log.len() as u64) {
            Some(front) => Ok(front),
            None => Err(NoMemory),
        }
    }

    /// The position of the next entry.
    pub fn next_position(&self) -> Result<u64, NoMemory>
        ensures { IfOk result (λ n. n ≡ front (as_state self.now) + 1) }
    {
        match self.front()?.checked_add(1) {
            Some(next) => Ok(next),
            None => Err(NoMemory),
        }
    }

    /// The entries behind a position.
    pub fn entries_past(&self, position: u64) -> &[Entry]
        ensures { result.now ≡ entries_past (as_state self.now) position }
    {
        behind(self.log.as_slice(), position.saturating_sub(self.begin))
    }

    /// The content at a position.
    pub fn content_at(&self, alloc: Global, position: u64) -> Result<PlainContent, NoMemory>
        ensures { IfOk result (λ c. c ≡ content_at (as_state self.now) position) }
    {
        let entries = first_of(self.log.as_slice(), position.saturating_sub(self.begin));
        after_all(alloc, &self.base, entries)
    }

    /// The content at the front.
    pub fn content(&self, alloc: Global) -> Result<PlainContent, NoMemory>
        ensures { IfOk result (λ c. c ≡ content (as_state self.now)) }
    {
        after_all(alloc, &self.base, self.log.as_slice())
    }

    pub fn is_full(&self, limits: &Limits) -> bool
        ensures { result ≡ is_full limits.now (as_state self.now) }
    {
        u128::from(limits.positions) <= u128::from(self.begin) + self.log.len() as u128
    }

    /// No file number from 2^63 on is given out.
    pub fn has_no_number(&self) -> bool
        ensures { result ≡ has_no_number (as_state self.now) }
    {
        9_223_372_036_854_775_808 <= self.next
    }

    /// The least of the applied position and of those that are read.
    pub fn low_water(&self) -> u64
        ensures { result ≡ low_water (as_state self.now) }
    {
        least_position(self.applied, self.pins.as_slice())
    }
}

fn behind(entries: &[Entry], count: u64) -> &[Entry]
    ensures { result.now ≡ drop count entries.now }
{
    let count = entries.len().min(count as usize);
    &entries[count..]
}

pub(crate) fn first_of(entries: &[Entry], count: u64) -> &[Entry]
    ensures { result.now ≡ take count entries.now }
{
    let count = entries.len().min(count as usize);
    &entries[..count]
}

/// The content after entries over a content.
fn after_all(
    alloc: Global,
    base: &PlainContent,
    entries: &[Entry],
) -> Result<PlainContent, NoMemory>
    ensures { IfOk result (λ c. c ≡ after_all base.now entries.now) }
{
    let mut content = base.clone()?;
    for entry in entries {
        content.apply(alloc, entry)?;
    }
    Ok(content)
}

fn least_position(least: u64, pins: &[PlainPin]) -> u64
    ensures { result ≡ fold (λ low p. min low p.position) least pins.now }
{
    let mut low = least;
    for pin in pins {
        low = low.min(pin.position());
    }
    low
}
