//! Reads rows, each a line of words, and prints what comes of it: entries are added to the tables and to the plain model,
//! commits are staged, and questions are put to each of them.
#![tactic(auto)]

mod asked;
mod bench;
mod changing;
mod entries;
mod looking;
mod numbered;
mod objects;
mod refs;
mod seeding;
mod shown;
mod staging;
mod table;
mod verdicts;
mod version;

use bench::Bench;
use std::alloc::Global;
use std::io;
use std::rt::Runtime;

fn main(rt: HostRuntime) -> io::Result<()> {
    let alloc = rt.alloc();
    match Bench::new(alloc, 0) {
        Some(mut bench) => take_lines(&rt, alloc, &mut bench),
        None => println!(rt; "memory"),
    }
}

fn take_lines<R: Runtime>(rt: &R, alloc: Global, bench: &mut Bench) -> io::Result<()> {
    for line in rt.lines(alloc) {
        take_line(rt, alloc, bench, line?.as_str())?;
    }
    Ok(())
}

fn take_line(rt: &impl Print, alloc: Global, bench: &mut Bench, line: &str) -> io::Result<()> {
    let mut out = Vec::new(alloc);
    changing::row(&mut out, alloc, bench, line)?;
    row_words::show(rt, &out)
}
