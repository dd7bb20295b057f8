//! Reads rows, each a line of words, and prints what comes of it: what jobs and applications come to over a plain content.
//! `row_words` has the grammar of the words.
#![tactic(auto)]

mod asking;
mod batches;
mod bench;
mod conflicts;
mod jobs;
mod rows;
mod tags;

use bench::Bench;
use std::alloc::Global;
use std::io;
use std::rt::Runtime;

fn main(rt: HostRuntime) -> io::Result<()> {
    let alloc = rt.alloc();
    let mut bench = Bench::new(alloc);
    take_lines(&rt, alloc, &mut bench)
}

fn take_lines<R: Runtime>(rt: &R, alloc: Global, bench: &mut Bench) -> io::Result<()> {
    for line in rt.lines(alloc) {
        take_line(rt, alloc, bench, line?.as_str())?;
    }
    Ok(())
}

fn take_line(rt: &impl Print, alloc: Global, bench: &mut Bench, line: &str) -> io::Result<()> {
    let mut out = Vec::new(alloc);
    rows::row(&mut out, alloc, bench, line)?;
    row_words::show(rt, &out)
}
