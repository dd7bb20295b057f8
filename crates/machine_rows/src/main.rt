//! Reads events, each a line of words, over one state of the machine that goes on, and prints what comes of each: the answer,
//! as a script prints it, and the files that are still needed. `events` has the grammar of the words.
#![tactic(auto)]

mod bench;
mod events;
mod reading;
mod rows;
mod shown;

use bench::{Bench, usual};
use std::alloc::Global;
use std::io;
use std::rt::Runtime;

fn main(rt: HostRuntime) -> io::Result<()> {
    let alloc = rt.alloc();
    match Bench::new(alloc, usual()) {
        Some(mut bench) => take_lines(&rt, alloc, &mut bench),
        None => println!(rt; "memory"),
    }
}

fn take_lines<R: Runtime>(rt: &R, alloc: Global, bench: &mut Bench) -> io::Result<()> {
    for line in rt.lines(alloc) {
        take_line(rt, alloc, bench, line?.as_str())?;
    }
    Ok(())
}

fn take_line(rt: &impl Print, alloc: Global, bench: &mut Bench, line: &str) -> io::Result<()> {
    let mut out = Vec::new(alloc);
    rows::row(&mut out, alloc, bench, line)?;
    row_words::show(rt, &out)
}
