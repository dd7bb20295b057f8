//! `start POSITIONS EPOCHS PINS` begins anew with these limits. `up REFERENCE OLD NEW` and `record KIND CONTENT` stage for the next
//! commit. `state` prints the state's numbers. `restart` opens the state anew over what its files have. `#` begins a title, which
//! is printed. Any other line is an event.
use crate::bench::{Bench, limits_of};
use crate::events::event_of;
use crate::reading::added_of;
use crate::shown::{put_field, put_files};
use gt_list::NoMemory;
use gt_model::{Answer, Done, Event};
use gt_plain_files::{PlainFiling, filed_all};
use gt_plain_machine::{PlainState, opening};
use row_words::{put, put_answer, update_of};
use std::alloc::{AllocError, Global};
use std::mem;

pub(crate) fn row(
    out: &mut Vec<u8>,
    alloc: Global,
    bench: &mut Bench,
    line: &str,
) -> Result<(), AllocError> {
    let (kind, words) = line.split_once(' ').unwrap_or((line, ""));
    match kind {
        "#" => put(out, line.as_bytes()),
        "start" => put_failed(out, start(alloc, bench, words)),
        "up" | "record" => put_failed(out, stage(alloc, bench, kind, words)),
        "state" => put_state(out, &bench.state),
        "restart" => restart(out, alloc, bench),
        _ => event(out, alloc, bench, line),
    }
}

fn put_failed(out: &mut Vec<u8>, done: Option<()>) -> Result<(), AllocError> {
    match done {
        Some(()) => Ok(()),
        None => put(out, b"bad row"),
    }
}

fn start(alloc: Global, bench: &mut Bench, words: &str) -> Option<()> {
    *bench = Bench::new(alloc, limits_of(words)?)?;
    Some(())
}

fn stage(alloc: Global, bench: &mut Bench, kind: &str, words: &str) -> Option<()> {
    if kind == "up" {
        return bench.refs.push(update_of(alloc, words)?).ok();
    }
    bench.records.push(added_of(alloc, words)?).ok()
}

fn put_state(out: &mut Vec<u8>, state: &PlainState) -> Result<(), AllocError> {
    put_field(out, b"front", state.front().unwrap_or(u64::MAX))?;
    put_field(out, b"applied", state.applied)?;
    put_field(out, b"floor", state.floor)?;
    put_field(out, b"low", state.low_water())?;
    put_field(out, b"epoch", state.epoch)?;
    put_field(out, b"next", state.next)?;
    put_field(out, b"live", state.pins.len() as u64)
}

fn event(
    out: &mut Vec<u8>,
    alloc: Global,
    bench: &mut Bench,
    line: &str,
) -> Result<(), AllocError> {
    let Some(event) = event_of(alloc, bench, line) else {
        return put(out, b"bad row");
    };
    let Ok(filing) = filing_after(alloc, bench, &event) else {
        return put(out, b"memory");
    };
    if !bench.state.is_asked(&event) {
        return put(out, b"not asked");
    }
    match bench.state.step(alloc, &bench.limits, &event) {
        Ok(answer) => put_step(out, alloc, bench, filing, &answer),
        Err(_) => put(out, b"memory"),
    }
}

fn put_step(
    out: &mut Vec<u8>,
    alloc: Global,
    bench: &mut Bench,
    filing: PlainFiling,
    answer: &Answer,
) -> Result<(), AllocError> {
    if let Ok(Done::Applied { .. }) = answer {
        bench.filing = filing;
    }
    put_answer(out, alloc, answer)?;
    put_named(out, alloc, bench)
}

/// The files once the entries of an application are in them.
fn filing_after(alloc: Global, bench: &Bench, event: &Event) -> Result<PlainFiling, NoMemory> {
    let filing = bench.filing.copy(alloc)?;
    let Event::Apply { n } = event else {
        return Ok(filing);
    };
    let entries = bench.state.entries_past(bench.state.applied);
    let count = entries.len().min(*n as usize);
    filed_all(alloc, bench.state.next, &entries[..count], filing)
}

fn put_named(out: &mut Vec<u8>, alloc: Global, bench: &Bench) -> Result<(), AllocError> {
    match bench.state.named_files(alloc, &bench.filing) {
        Ok(mut files) => {
            files.sort()?;
            put_files(out, &files)
        }
        Err(_) => put(out, b"memory"),
    }
}

fn restart(out: &mut Vec<u8>, alloc: Global, bench: &mut Bench) -> Result<(), AllocError> {
    let Ok(recovered) = bench.state.recovered_of(alloc) else {
        return put(out, b"memory");
    };
    let Ok(state) = opening(alloc, recovered) else {
        return put(out, b"memory");
    };
    bench.state = state;
    bench.filing = mem::replace(&mut bench.filing, PlainFiling::new(alloc)).opened(alloc);
    put(out, b"ok restart")?;
    put_named(out, alloc, bench)
}
