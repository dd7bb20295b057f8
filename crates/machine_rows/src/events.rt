//! `create PATH`, `pool PATH`, `delete PATH`, `link PATH POOL`; `begin PATH SEEN`, `get PIN REFERENCE`, `list PIN [PREFIX]`,
//! `cat PIN NAME`, `commit PIN`, of what was staged, `abort PIN`; `house JOB PATH`, `step PIN COUNT`, `close PIN`; `apply COUNT`,
//! `trim`, `sweep`. A pin is a number.
use crate::bench::Bench;
use crate::reading::{count_of, job_of, pin_of, word_of};
use gt_list::ListOf;
use gt_model::Event;
use row_words::{name_of, number, path_of, ref_of};
use std::alloc::Global;
use std::mem;

pub(crate) fn event_of(alloc: Global, bench: &mut Bench, line: &str) -> Option<Event> {
    let (kind, words) = line.split_once(' ').unwrap_or((line, ""));
    match kind {
        "trim" => Some(Event::Trim),
        "sweep" => Some(Event::Sweep),
        "apply" => Some(Event::Apply {
            n: count_of(words)?,
        }),
        "commit" => commit_of(alloc, bench, pin_of(words)?),
        "begin" => begin_of(alloc, words),
        "house" => house_of(alloc, words),
        "create" | "pool" | "delete" | "link" => change_of(alloc, kind, words),
        _ => pinned_of(alloc, kind, words),
    }
}

fn commit_of(alloc: Global, bench: &mut Bench, pin: u8) -> Option<Event> {
    let refs = mem::replace(&mut bench.refs, ListOf::new(alloc));
    let records = mem::replace(&mut bench.records, ListOf::new(alloc));
    Some(Event::Commit { pin, refs, records })
}

fn begin_of(alloc: Global, words: &str) -> Option<Event> {
    let (path, seen) = words.split_once(' ')?;
    let seen = number(seen)?;
    let path = path_of(alloc, path)?;
    Some(Event::Begin { path, seen })
}

fn house_of(alloc: Global, words: &str) -> Option<Event> {
    let (job, path) = words.split_once(' ')?;
    let job = job_of(job)?;
    let path = path_of(alloc, path)?;
    Some(Event::HouseOpen { path, job })
}

fn change_of(alloc: Global, kind: &str, words: &str) -> Option<Event> {
    let (path, pool) = words.split_once(' ').unwrap_or((words, ""));
    let path = path_of(alloc, path)?;
    match kind {
        "create" => Some(Event::Create { path, pool: false }),
        "pool" => Some(Event::Create { path, pool: true }),
        "delete" => Some(Event::Delete { path }),
        _ => {
            let pool = path_of(alloc, pool)?;
            Some(Event::Link { path, pool })
        }
    }
}

fn pinned_of(alloc: Global, kind: &str, words: &str) -> Option<Event> {
    let (pin, word) = words.split_once(' ').unwrap_or((words, ""));
    let pin = pin_of(pin)?;
    match kind {
        "get" => Some(Event::GetRef {
            pin,
            name: ref_of(alloc, word)?,
        }),
        "list" => Some(Event::ListRefs {
            pin,
            prefix: word_of(alloc, word)?,
        }),
        "cat" => Some(Event::Cat {
            pin,
            name: name_of(word)?,
        }),
        "abort" => Some(Event::Abort { pin }),
        "step" => Some(Event::HouseStep {
            pin,
            n: count_of(word)?,
        }),
        "close" => Some(Event::HouseCommit { pin }),
        _ => None,
    }
}
