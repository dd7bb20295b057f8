//! Plays scripts over disks in memory by the calls of the program, and prints what comes of each.
//!
//! Each line of the input is a row. Some rows set what the next script meets, others do something to the disk in hand, and
//! others print: `Bench` says which there are.
#![tactic(auto)]

mod bench;
mod comparing;
mod expanding;
mod files;
mod logs;
mod outside;
mod pair;
mod printing;
mod scripts;
mod setting;
mod words;

use bench::Bench;
use std::io;

fn main(rt: HostRuntime) -> io::Result<()> {
    match Bench::new(rt.alloc()) {
        Some(mut bench) => take_lines(&rt, &mut bench),
        None => println!(rt; "no memory"),
    }
}

fn take_lines(rt: &HostRuntime, bench: &mut Bench) -> io::Result<()> {
    let alloc = rt.alloc();
    for line in rt.lines(alloc) {
        bench.take_line(rt, alloc, line?.as_str())?;
    }
    Ok(())
}
