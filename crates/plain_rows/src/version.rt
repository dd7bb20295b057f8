//! The values of one key: 20 from position 2 on, none from 5 on, and 90 from 9 on, where 91 is put in its place. And a key
//! that is there from 3 on, until 6.
use gt_list::NoMemory;
use gt_versions::{Versions, later_versions_leave_earlier_positions};
use row_words::{number, put, put_number};
use std::alloc::{AllocError, Global};

fn steps(alloc: Global) -> Result<Versions<Option<u64>>, NoMemory> {
    let mut versions = Versions::new(alloc);
    versions.reserve()?;
    versions.put(2, Some(20));
    versions.reserve()?;
    versions.put(5, None);
    versions.reserve()?;
    versions.put(9, Some(90));
    versions.put(9, Some(91));
    Ok(versions)
}

fn lives(alloc: Global) -> Result<Versions<bool>, NoMemory> {
    let mut lives = Versions::new(alloc);
    lives.reserve()?;
    lives.put(3, true);
    lives.reserve()?;
    lives.put(6, false);
    Ok(lives)
}

/// `value POSITION START`, or `life POSITION`: where the last version begins, and since when the key is there.
pub(crate) fn row(out: &mut Vec<u8>, alloc: Global, words: &str) -> Result<(), AllocError> {
    later_versions_leave_earlier_positions::<u64>();
    match words.split_once(' ') {
        Some(("value", words)) => value(out, alloc, words),
        Some(("life", word)) => life(out, alloc, number(word).unwrap_or(0)),
        _ => put(out, b"bad row"),
    }
}

fn value(out: &mut Vec<u8>, alloc: Global, words: &str) -> Result<(), AllocError> {
    let (position, start) = words.split_once(' ').unwrap_or((words, ""));
    match steps(alloc) {
        Ok(versions) => put_maybe(
            out,
            versions
                .value_since(number(start).unwrap_or(0), number(position).unwrap_or(0))
                .copied(),
        ),
        Err(_) => put(out, b"memory"),
    }
}

fn life(out: &mut Vec<u8>, alloc: Global, position: u64) -> Result<(), AllocError> {
    match lives(alloc) {
        Ok(lives) => {
            put_number(out, lives.start(position))?;
            put_maybe(out, lives.lives_since(position))
        }
        Err(_) => put(out, b"memory"),
    }
}

fn put_maybe(out: &mut Vec<u8>, value: Option<u64>) -> Result<(), AllocError> {
    match value {
        Some(value) => put_number(out, value),
        None => put(out, b"none"),
    }
}
